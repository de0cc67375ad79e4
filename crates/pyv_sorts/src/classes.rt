//! Classes of numbers, by pointers towards the least number of each class (Galler and Fisher, "An
//! improved equivalence algorithm", 1964), whose paths are halved as they are walked.

ghost use Rattle.std.specs.Prelude.{◌≡◌, ◌<◌, ℕ, length, slice_index_or};
ghost use Rattle.pyv_sorts.specs.Classes.{Falls, Leads, united};

/// The number that represents the class of a number.
pub fn find(parents: &mut [usize], number: usize) -> usize
    requires falls { Falls parents.old }
    requires within { number < length parents.old }
    ensures class { (f : ℕ → ℕ) → Leads parents.old f → result ≡ f number }
    ensures kept { (f : ℕ → ℕ) → Leads parents.old f → Leads parents.new f }
    ensures falls { Falls parents.new }
    ensures within { result < length parents.new }
    ensures root { slice_index_or parents.new result 0 ≡ result }
{
    let mut at = number;
    'walk: while parents[at] < at {
        let above = parents[parents[at]];
        parents[at] = above;
        at = above;
    }
    at
}

/// Makes one class of the classes of two numbers.
pub fn unite(parents: &mut [usize], one: usize, other: usize)
    requires falls { Falls parents.old }
    requires one { one < length parents.old }
    requires other { other < length parents.old }
    ensures united { (f : ℕ → ℕ) → Leads parents.old f → Leads parents.new (united f one other) }
    ensures falls { Falls parents.new }
{
    let one = find(parents, one);
    let other = find(parents, other);
    if one < other {
        parents[other] = one;
    } else {
        parents[one] = other;
    }
}
