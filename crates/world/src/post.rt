// A letter on a wire.
use hut::Text;

#[derive(Drop)]
pub struct Letter {
    pub sender: u64,
    pub reader: u64,
    pub text: Text,
}
