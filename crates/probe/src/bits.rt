// Bits, most significant first: read from bytes, and written into them.
use std::array;

// Its place is counted in bits, since a flag is one and the words behind it begin within a byte. Behind the last bit come zeros, so
// no `read` asks for a bound.
#[derive(Drop)]
pub struct Reader<'a> {
    bytes: &'a [u8],
    at: usize,
}

impl<'a> Reader<'a> {
    pub fn new(bytes: &'a [u8]) -> Reader<'a> {
        Reader { bytes, at: 0 }
    }

    pub fn read<T: Packed>(&mut self) -> T {
        T::read(self)
    }

    fn bit(&mut self) -> bool {
        let (bytes, at) = (self.bytes, self.at);
        self.at = at.saturating_add(1);
        bytes
            .get(at / 8)
            .is_some_and(|&byte| byte & (0x80 >> (at % 8)) != 0)
    }
}

// Into bytes that are zero. What comes behind the last bit is dropped, so no `write` asks for a bound.
#[derive(Drop)]
pub struct Writer<'a> {
    bytes: &'a mut [u8],
    at: usize,
}

impl<'a> Writer<'a> {
    pub fn new(bytes: &'a mut [u8]) -> Writer<'a> {
        Writer { bytes, at: 0 }
    }

    pub fn write<T: Packed>(&mut self, field: T) {
        field.write(self);
    }

    fn bit(&mut self, bit: bool) {
        let at = self.at;
        self.at = at.saturating_add(1);
        if let Some(byte) = self.bytes.get_mut(at / 8) {
            *byte |= u8::from(bit) << (7 - at % 8);
        }
    }
}

// What is read and written bit by bit: its parts, in their order.
pub trait Packed {
    fn read(bits: &mut Reader) -> Self;

    fn write(self, bits: &mut Writer);
}

impl Packed for bool {
    fn read(bits: &mut Reader) -> bool {
        bits.bit()
    }

    fn write(self, bits: &mut Writer) {
        bits.bit(self);
    }
}

impl Packed for u8 {
    fn read(bits: &mut Reader) -> u8 {
        (0..8).fold(0, |byte, _| (byte << 1) | u8::from(bits.bit()))
    }

    fn write(self, bits: &mut Writer) {
        // A byte's bits have no iterator.
        for place in (0..8u32).rev() {
            bits.bit((self >> place) & 1 == 1);
        }
    }
}

impl<const N: usize> Packed for [u8; N] {
    fn read(bits: &mut Reader) -> [u8; N] {
        array::from_fn(|_| bits.read())
    }

    fn write(self, bits: &mut Writer) {
        for byte in self {
            bits.write(byte);
        }
    }
}

// Two widths, two blocks: no trait of std has `from_be_bytes`, and one of our own would need a block for each too.
impl Packed for u32 {
    fn read(bits: &mut Reader) -> u32 {
        u32::from_be_bytes(bits.read())
    }

    fn write(self, bits: &mut Writer) {
        bits.write(self.to_be_bytes());
    }
}

impl Packed for u64 {
    fn read(bits: &mut Reader) -> u64 {
        u64::from_be_bytes(bits.read())
    }

    fn write(self, bits: &mut Writer) {
        bits.write(self.to_be_bytes());
    }
}
