ghost use Rattle.std.specs.Prelude.{◌≡◌, ◌≤◌, ◌<◌, ◌^◌, true, false, length, nat_lt, if◌then◌else◌};
ghost use Rattle.std.specs.List.Sorted.{IsPartitionPoint, IsPartitionedBy};
ghost use Rattle.np_values.specs.Name.{is_before};

use crate::Named;
use crate::named::number_of;
use np_values::Name;

/// Twice this number, and one more, is the largest of its type.
const HALF: u64 = 0x7fff_ffff_ffff_ffff;

/// The count, where the first number is less than the second, else 0. There is no branch in it.
fn count_if_less(count: usize, a: u64, b: u64) -> usize
    requires first { a < 2 ^ 41 }
    requires second { b < 2 ^ 41 }
    ensures value { result ≡ (if nat_lt a b then count else 0) }
{
    let is_less = (b + HALF - a) / (HALF + 1);
    count * is_less as usize
}

/// How many entries stand before the name, where these are the first ones. The search halves the entries, and adds up what
/// it passes in place of taking a branch, since no branch of a search can be foreseen.
pub fn count_before<T: Named>(entries: &[T], name: Name) -> usize
    requires partitioned { IsPartitionedBy (λ e. is_before (T.Named.name_of e) name) entries.now }
    ensures within { result ≤ length entries.now }
    ensures parts { IsPartitionPoint (λ e. is_before (T.Named.name_of e) name ≡ true) (λ e. is_before (T.Named.name_of e) name ≡ false) entries.now result }
{
    let mut size = entries.len();
    if size == 0 {
        return 0;
    }
    let number = number_of(name);
    let mut base = 0;
    while size > 1 {
        let half = size / 2;
        base += count_if_less(half, entries[base + half].number(), number);
        size -= half;
    }
    base + count_if_less(1, entries[base].number(), number)
}
