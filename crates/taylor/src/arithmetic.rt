// How models are multiplied.
ghost use Rattle.std.specs.Prelude.{◌≤◌};
ghost use Rattle.taylor.specs.Form.{greatest_order};

// The kind of coefficient, the ranging method, and the order: the greatest degree that is kept.
#[derive(Debug, Drop)]
pub struct Arithmetic<'a, K, M> {
    pub kind: &'a K,
    pub method: &'a M,
    pub order: u32,
    pub ghost low: { order ≤ greatest_order },
}
