// Where octets are laid one after the other.
ghost use Rattle.std.specs.Prelude.{◌≤◌};

// No layout has more octets than these without its value.
#[derive(Clone, Copy)]
pub struct Work {
    pub octets: [u8; 24],
    pub len: usize,
    pub ghost fits: { len ≤ 24 },
}
