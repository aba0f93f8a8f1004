// A file or an image of which one byte is another.
use super::told::Told;

#[derive(Clone, Copy)]
pub struct Patch {
    pub name: &'static str,
    at: usize,
    byte: u8,
    pub expected: Told,
}

pub fn put(name: &'static str, at: usize, byte: u8, expected: Told) -> Patch {
    Patch {
        name,
        at,
        byte,
        expected,
    }
}

impl Patch {
    pub fn of(&self, mut bytes: Vec<u8>) -> Vec<u8> {
        if let Some(byte) = bytes.get_mut(self.at) {
            *byte = self.byte;
        }
        bytes
    }
}
