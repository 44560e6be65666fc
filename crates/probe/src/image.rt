// The image of a state: 128 bytes, fields in the order of RULES, 'The state', most significant bit first, zeros, 0xA5 last.
use crate::bits::{Packed, Reader, Writer};
use rules::{Controls, Features, State, Timer, Timers};

pub const IMAGE_BYTES: usize = 128;

pub fn read_state(image: &[u8; IMAGE_BYTES]) -> State {
    Reader::new(image).read()
}

pub fn image_of(state: State) -> [u8; IMAGE_BYTES] {
    let mut image = [0; IMAGE_BYTES];
    Writer::new(&mut image).write(state);
    image[IMAGE_BYTES - 1] = 0xA5;
    image
}

// Each type has its fields in their order twice: a reader makes what a writer takes apart.
impl Packed for Features {
    fn read(bits: &mut Reader) -> Features {
        Features {
            vhe: bits.read(),
            sel2: bits.read(),
            ecv: bits.read(),
        }
    }

    fn write(self, bits: &mut Writer) {
        bits.write(self.vhe);
        bits.write(self.sel2);
        bits.write(self.ecv);
    }
}

impl Packed for Controls {
    fn read(bits: &mut Reader) -> Controls {
        Controls {
            ns: bits.read(),
            eel2: bits.read(),
            ecven: bits.read(),
            e2h: bits.read(),
            tge: bits.read(),
            cntkctl: bits.read(),
            cnthctl: bits.read(),
        }
    }

    fn write(self, bits: &mut Writer) {
        bits.write(self.ns);
        bits.write(self.eel2);
        bits.write(self.ecven);
        bits.write(self.e2h);
        bits.write(self.tge);
        bits.write(self.cntkctl);
        bits.write(self.cnthctl);
    }
}

impl Packed for Timer {
    fn read(bits: &mut Reader) -> Timer {
        Timer {
            cval: bits.read(),
            enable: bits.read(),
            imask: bits.read(),
        }
    }

    fn write(self, bits: &mut Writer) {
        bits.write(self.cval);
        bits.write(self.enable);
        bits.write(self.imask);
    }
}

impl Packed for Timers {
    fn read(bits: &mut Reader) -> Timers {
        Timers {
            cntp: bits.read(),
            cntv: bits.read(),
            cnthp: bits.read(),
            cnthv: bits.read(),
            cnthps: bits.read(),
            cnthvs: bits.read(),
        }
    }

    fn write(self, bits: &mut Writer) {
        bits.write(self.cntp);
        bits.write(self.cntv);
        bits.write(self.cnthp);
        bits.write(self.cnthv);
        bits.write(self.cnthps);
        bits.write(self.cnthvs);
    }
}

impl Packed for State {
    fn read(bits: &mut Reader) -> State {
        State {
            features: bits.read(),
            controls: bits.read(),
            cntvoff: bits.read(),
            cntpoff: bits.read(),
            timers: bits.read(),
        }
    }

    fn write(self, bits: &mut Writer) {
        bits.write(self.features);
        bits.write(self.controls);
        bits.write(self.cntvoff);
        bits.write(self.cntpoff);
        bits.write(self.timers);
    }
}
