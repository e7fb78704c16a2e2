ghost use Rattle.std.specs.Prelude.{◌≡◌, max};

/// The greater of two levels.
pub fn greater(level: u8, other: u8) -> u8
    ensures value { result ≡ max level other }
{
    if level < other { other } else { level }
}
