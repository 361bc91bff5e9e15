//! Numbers in classes.

ghost use Rattle.std.specs.Prelude.{◌≡◌, ◌<◌, ◌≤◌, length};
ghost use Rattle.wdl_structs.specs.Classes as spec;

/// The least number of a class.
pub fn least(parents: &[usize], number: usize) -> usize
    requires low { spec.IsLow parents.now }
    requires within { number < length parents.now }
    ensures root { result ≡ spec.root parents.now number }
    ensures below { result ≤ number }
{
    let mut at = number;
    while parents[at] < at {
        at = parents[at];
    }
    at
}

/// Makes the classes of two numbers one.
pub fn join(parents: &mut [usize], left: usize, right: usize)
    requires low { spec.IsLow parents.old }
    requires left { left < length parents.old }
    requires right { right < length parents.old }
    ensures low { spec.IsLow parents.new }
    ensures len { length parents.new ≡ length parents.old }
    ensures joined { spec.IsJoined parents.old parents.new left right }
{
    let first = least(parents, left);
    let second = least(parents, right);
    if first < second {
        parents[second] = first;
    } else {
        parents[first] = second;
    }
}
