//! The fields of a line, which are taken off its front.

ghost use Rattle.std.specs.Prelude.{◌≡◌, ◌++◌, [], ◌∷◌, OnOk, OnErr, slice_get, length, option_map};

use crate::{Field, Operand, Operands};
use np_idents::IdKey;
use np_values::{Handler, NoMemory, NpReason, Range, Ranges, Text, Texts};
use std::alloc::Global;
use std::collections::VecDeque;
use std::marker::Model;

/// The fields of a line that were not taken yet. A row of a table takes them off the front, one after
/// another, and then asks for the end.
#[derive(Drop)]
pub struct Fields {
    left: VecDeque<Field>,
}

impl Model for Fields {
    ghost use Rattle.std.specs.Prelude.{List};
    ghost use Rattle.np_script_grammar.specs.declared.line.Field.{Field};

    ghost Value = { List Field };

    ghost view = { λ f. f.left.items };
}

impl Fields {
    ghost use Rattle.np_script_grammar.specs.Takes.{Takes, Gives, take, register_in, operand_in, integer_in, number_in, byte_in, text_in, key_in, mode_in, handler_in, reason_in, at_end, all_of, all_ranges};

    /// No fields. It allocates with the first one.
    pub fn new(alloc: Global) -> Fields
        ensures value { result ≡ [] }
    {
        Fields {
            left: VecDeque::new(alloc),
        }
    }

    /// Appends a field. An `Err` means that memory ran out; the field is dropped.
    pub fn push(&mut self, field: Field) -> Result<(), NoMemory>
        ensures ok { OnOk result (self.new ≡ self.old ++ field ∷ []) }
        ensures err { OnErr result (self.new ≡ self.old) }
    {
        self.left.push_back(field)?;
        Ok(())
    }

    /// Takes the next field as a register, 0 to 15. `None` means that it is of another kind or missing; it is
    /// gone either way.
    pub fn register(&mut self) -> Option<u8>
        ensures value { Takes result self.new (take register_in self.old) }
    {
        match self.left.pop_front() {
            Some(Field::Register(number)) => Some(number),
            _ => None,
        }
    }

    /// Takes the next field as an operand; `None` as for `register`.
    pub fn operand(&mut self) -> Option<Operand>
        ensures value { Takes result self.new (take operand_in self.old) }
    {
        match self.left.pop_front() {
            Some(Field::Operand(operand)) => Some(operand),
            _ => None,
        }
    }

    /// Takes the next field as a signed number; `None` as for `register`.
    pub fn integer(&mut self) -> Option<i32>
        ensures value { Takes result self.new (take integer_in self.old) }
    {
        match self.left.pop_front() {
            Some(Field::Integer(number)) => Some(number),
            _ => None,
        }
    }

    /// Takes the next field as an unsigned number; `None` as for `register`.
    pub fn number(&mut self) -> Option<u32>
        ensures value { Takes result self.new (take number_in self.old) }
    {
        match self.left.pop_front() {
            Some(Field::Number(number)) => Some(number),
            _ => None,
        }
    }

    /// Takes the next field as a number of at most 255; `None` also above that.
    pub fn byte(&mut self) -> Option<u8>
        ensures value { Takes result self.new (take byte_in self.old) }
    {
        match self.left.pop_front() {
            Some(Field::Number(number)) => {
                if number < 256 {
                    Some(number as u8)
                } else {
                    None
                }
            }
            _ => None,
        }
    }

    /// Takes the next field as a text, which the caller then owns; `None` as for `register`.
    pub fn text(&mut self) -> Option<Text>
        ensures value { Takes result self.new (take text_in self.old) }
    {
        match self.left.pop_front() {
            Some(Field::Text(text)) => Some(text),
            _ => None,
        }
    }

    /// Takes the next field as an identifier, which the caller then owns; `None` as for `register`.
    pub fn key(&mut self) -> Option<IdKey>
        ensures value { Takes result self.new (take key_in self.old) }
    {
        match self.left.pop_front() {
            Some(Field::Identifier(key)) => Some(key),
            _ => None,
        }
    }

    /// Takes the next field as the mode of an instance, 1 or 2; `None` as for `register`.
    pub fn mode(&mut self) -> Option<u8>
        ensures value { Takes result self.new (take mode_in self.old) }
    {
        match self.left.pop_front() {
            Some(Field::Mode(mode)) => Some(mode),
            _ => None,
        }
    }

    /// Takes the next field as a handler; `None` as for `register`.
    pub fn handler(&mut self) -> Option<Handler>
        ensures value { Takes result self.new (take handler_in self.old) }
    {
        match self.left.pop_front() {
            Some(Field::HandlerWord(handler)) => Some(handler),
            _ => None,
        }
    }

    /// Takes the next field as a reason, whose number is 0 to 2; `None` also above that.
    pub fn reason(&mut self) -> Option<NpReason>
        ensures value { Takes result self.new (take reason_in self.old) }
    {
        let number = self.number()?;
        if number < 3 {
            NpReason::from_code(number as u16)
        } else {
            None
        }
    }

    /// The number of fields that were not taken yet.
    pub fn len(&self) -> usize
        ensures value { result ≡ length self.now }
    {
        self.left.len()
    }

    /// Lends the field at a place, counted from 0, without taking it.
    pub fn get(&self, place: usize) -> Option<&Field>
        ensures value { option_map (λ field. field.now) result ≡ slice_get self.now place }
    {
        self.left.get(place)
    }

    /// `Some` exactly when no field is left, so that a row can end with `?`.
    pub fn end(&self) -> Option<()>
        ensures value { result ≡ at_end self.now }
    {
        if self.left.is_empty() { Some(()) } else { None }
    }

    /// Takes all fields that are left as operands; `None` where one is of another kind. An `Err` means that
    /// memory ran out.
    #[tactic(auto, using(crate::proofs::AllFields::one_taken, crate::proofs::AllFields::one_missing))]
    pub fn operands(mut self, alloc: Global) -> Result<Option<Operands>, NoMemory>
        ensures value { Gives result (all_of operand_in self) }
    {
        let mut operands = Operands::new(alloc);
        while !self.left.is_empty() {
            let Some(operand) = self.operand() else {
                return Ok(None);
            };
            operands.push(operand)?;
        }
        Ok(Some(operands))
    }

    /// Takes all fields that are left as texts; `None` where one is of another kind. An `Err` means that
    /// memory ran out.
    #[tactic(auto, using(crate::proofs::AllFields::one_taken, crate::proofs::AllFields::one_missing))]
    pub fn texts(mut self, alloc: Global) -> Result<Option<Texts>, NoMemory>
        ensures value { Gives result (all_of text_in self) }
    {
        let mut texts = Texts::new(alloc);
        while !self.left.is_empty() {
            let Some(text) = self.text() else {
                return Ok(None);
            };
            texts.push(text)?;
        }
        Ok(Some(texts))
    }

    /// Takes all fields that are left as ranges, an offset and a length for each; `None` where they are
    /// others or one is left over. An `Err` means that memory ran out.
    #[tactic(auto, using(crate::proofs::AllFields::range_taken, crate::proofs::AllFields::offset_missing, crate::proofs::AllFields::length_missing))]
    pub fn ranges(mut self, alloc: Global) -> Result<Option<Ranges>, NoMemory>
        ensures value { Gives result (all_ranges self) }
    {
        let mut ranges = Ranges::new(alloc);
        while !self.left.is_empty() {
            let Some(offset) = self.integer() else {
                return Ok(None);
            };
            let Some(length) = self.number() else {
                return Ok(None);
            };
            ranges.push(Range { offset, length })?;
        }
        Ok(Some(ranges))
    }
}
