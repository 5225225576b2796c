ghost use Rattle.std.specs.Prelude.{◌≡◌, ◌≤◌, ◌<◌, ◌+◌, ℕ, vec_len, vec_capacity};
ghost use Rattle.ck_area.specs.Pushed.{ArePushed};

/// Appends what is made for each number below the count, in their order.
pub fn push_each<T, F: Fn(usize) -> T>(into: &mut Vec<T>, count: usize, make: &F)
    requires room { vec_len into.old + count ≤ vec_capacity into.old }
    requires callable { (k : ℕ) → k < count → F.pre make.now k }
    ensures pushed { ArePushed (λ number value. F.post make.now number value) into.old.items count into.new.items }
    ensures capacity { vec_capacity into.new ≡ vec_capacity into.old }
{
    for number in 0..count {
        into.push_reserved(make(number));
    }
}
