/// What comes to a chain: a whole signal, or one that may go on.
#[derive(Clone, Copy, Debug)]
pub enum Signal {
    Whole,
    Live,
}
