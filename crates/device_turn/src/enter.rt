/// What `enter` answers.
#[derive(Debug, Drop)]
pub enum Enter<H> {
    Got(H),
    Taken { seat: u64 },
}
