/// What is called round each page's fetch, with the page's number.
pub trait Gate {
    /// Before the page is fetched.
    fn before(&mut self, number: u64);

    /// After it was fetched.
    fn after(&mut self, number: u64);
}

/// A gate that does nothing.
#[derive(Drop)]
pub struct NoGate;

impl Gate for NoGate {
    fn before(&mut self, _number: u64) {}

    fn after(&mut self, _number: u64) {}
}
