// A sound table, lent to be read.
ghost use Rattle.std.specs.Prelude.{◌≡◌, true};
ghost use Rattle.layout.specs.Soundness.{sound};

#[derive(Clone, Copy)]
pub struct Sound<'a> {
    pub bytes: &'a [u8],
    pub ghost is_sound: { sound bytes.now ≡ true },
}
