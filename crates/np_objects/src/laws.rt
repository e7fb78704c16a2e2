ghost use Rattle.np_objects.specs.LiveObjects.{SameNamesAreEqual};
ghost use Rattle.np_objects.specs.History.{LiveObjectsAreKept, EachObjectIsKnown, EachNumberingIsKnown, HoldsAreCounted, SerialsOnlyRise, NoNameLivesAgain};

/// Two names are the same exactly where they are equal.
pub fn same_names_are_equal()
    ensures law { SameNamesAreEqual }
{}

/// A call leaves each live object live but the one that it takes out, and changes the holds of the one that it holds or lets go.
pub fn live_objects_are_kept()
    ensures law { LiveObjectsAreKept }
{}

/// What a call leaves of the object of each name: its class, fields, holds and pin.
pub fn each_object_is_known()
    ensures law { EachObjectIsKnown }
{}

/// What a call leaves of the last serial and the mark of each instance.
pub fn each_numbering_is_known()
    ensures law { EachNumberingIsKnown }
{}

/// While an object lives, its holds are the calls that held it less those that let it go.
pub fn holds_are_counted()
    ensures law { HoldsAreCounted }
{}

/// An instance's serials only rise.
pub fn serials_only_rise()
    ensures law { SerialsOnlyRise }
{}

/// A name that was given and doesn't live never lives again.
pub fn no_name_lives_again()
    ensures law { NoNameLivesAgain }
{}
