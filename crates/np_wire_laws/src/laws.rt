//! Each law is the contract of a function that does nothing.

ghost use Rattle.np_wire_laws.specs.Laws.{ItemsAreReadAgain, EncodedIsReadAgain, ReadIsEncoded, ReadBodiesAreMessages, NoEncodingBeginsAnother, MessagesFit, WaitsExactly, BeginningsAreAwaited, RefusesLengthExactly, LengthIsTold, RefusesOnlyFaults, RefusesEachFault, HasOneFirstFault, EncodingsHaveNoFault, BodiesAreEncodings, EncodingsAreBodies};

/// The bytes of an item are read as that item, whatever follows.
pub fn items_are_read_again()
    ensures law { ItemsAreReadAgain }
{}

/// What is encoded is read again, whatever follows.
pub fn encoded_is_read_again()
    ensures law { EncodedIsReadAgain }
{}

/// What is read was encoded: a message has no other bytes, and is one of the format.
pub fn read_is_encoded()
    ensures law { ReadIsEncoded }
{}

/// What the format reads of bytes is a message of the format.
pub fn read_bodies_are_messages()
    ensures law { ReadBodiesAreMessages }
{}

/// No encoding is the beginning of another one, so bytes are taken apart in one way only.
pub fn no_encoding_begins_another()
    ensures law { NoEncodingBeginsAnother }
{}

/// The body of a message has a length that its length field can say.
pub fn messages_fit()
    ensures law { MessagesFit }
{}

/// More bytes are awaited exactly where a message is cut short.
pub fn partial_is_cut_short()
    ensures exact { WaitsExactly }
    ensures beginning { BeginningsAreAwaited }
{}

/// A length is refused as soon as it is there, and exactly where it is out of 4 to 32,768.
pub fn length_is_refused()
    ensures exact { RefusesLengthExactly }
    ensures numbers { LengthIsTold }
{}

/// Bytes are refused exactly where they have a fault, and for the first one.
pub fn fault_is_first()
    ensures only { RefusesOnlyFaults }
    ensures each { RefusesEachFault }
    ensures one { HasOneFirstFault }
    ensures none { EncodingsHaveNoFault }
{}

/// The format encodes the messages of the format, and nothing else.
pub fn encodings_are_of_messages()
    ensures items { BodiesAreEncodings }
    ensures messages { EncodingsAreBodies }
{}
