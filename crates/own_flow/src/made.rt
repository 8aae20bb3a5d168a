/// A maker by its number, and its leaf.
#[derive(Clone, Copy, Debug)]
pub struct Made {
    pub maker: usize,
    pub leaf: u32,
}
