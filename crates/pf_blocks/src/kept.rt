ghost use Rattle.std.specs.Prelude.{◌≡◌};

use pf_layout::Layout;

/// Where a value is kept: the names of its vectors, and the order of its lanes. A value of one
/// vector or two has them several times. There is no order where each pixel has one number.
#[derive(Drop)]
pub struct Kept {
    pub names: [u32; 4],
    pub order: Option<Layout>,
}
