// Whole areas.
ghost use Rattle.std.specs.Prelude.{◌≡◌, ◌++◌, ◌-◌, ◌≤◌, length, take, replicate};

// "every word from sp, or hp, up is 0 at the ending"
pub(crate) fn wipe(s: &mut [u32], from: usize)
    requires { from ≤ length s.old }
    ensures { s.new ≡ take from s.old ++ replicate (length s.old - from) 0 }
{
    s[from..].fill(0);
}
