// The ends of a machine's wires as text: a line for each letter.
#![tactic(auto)]

mod error;
mod lines;

pub use error::{Reason, WireError};
pub use lines::{hear, send};

#[cfg(test)]
mod tests {
    use crate::send;
    use std::test::Fail;

    // The line behind `to`, also of a letter of no bytes.
    #[test]
    fn a_letter_is_written(rt: HostRuntime) -> Result<(), Fail> {
        let heap = rt.alloc();
        assert_eq!(rt; send(heap, 3, &[10, 27])?.as_str(), "to 3 0a1b");
        assert_eq!(rt; send(heap, 0, &[])?.as_str(), "to 0 ");
        Ok(())
    }
}
