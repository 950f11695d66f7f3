// Marks on the numbers from 0 up, eight to a byte: whether a number is marked, and marking it.
#![tactic(auto)]

ghost use Rattle.std.specs.Prelude.{◌≡◌, ◌*◌, ◌<◌, length};
ghost use Rattle.marks.specs.Marks.{marked, marking};

// Whether i is marked.
#[tactic(auto, unfolding(crate::specs::Marks::marked))]
pub fn is_marked(m: &[u8], i: usize) -> bool
    requires { i < 8 * length m.now }
    ensures { result ≡ marked m.now i }
{
    (m[i / 8] >> (i % 8)) % 2 == 1
}

// Marks i.
#[tactic(auto, unfolding(crate::specs::Marks::marking))]
pub fn mark(m: &mut [u8], i: usize)
    requires { i < 8 * length m.old }
    ensures { m.new ≡ marking m.old i }
{
    m[i / 8] |= 1 << (i % 8);
}
