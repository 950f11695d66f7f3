// A name that strings are compared with: its type says whether it holds a zero byte. Only the types stand here, since what a ghost
// field's file imports may not name the field's type, and `bytes_of` does, which the promises about names are written with.
// Assumes nothing.

ghost use Rattle.std.specs.Prelude.{◌≡◌, true, false};
ghost use Rattle.string_table.specs.Text.{is_clean};

// A name that holds no zero byte: told once, as many strings are compared with one name.
#[derive(Clone, Copy)]
pub struct CleanName<'a> {
    pub bytes: &'a [u8],
    pub ghost clean: { is_clean bytes.now ≡ true },
}

// A name that holds one, so that it is nobody's.
#[derive(Clone, Copy)]
pub struct UncleanName<'a> {
    pub bytes: &'a [u8],
    pub ghost unclean: { is_clean bytes.now ≡ false },
}
