// The machine that is modelled (RULES, 'The machine we model'), its fields in the order given there. EL0 to EL3 all exist
// and use AArch64. What is left out, nested virtualization, Realm, CNTPS, AArch32, event streams and debug state, has no
// field of its own; nor has a last count, since any count is allowed.

// The three yes/no facts; `ecv` stands for the feature of CNTPOFF too.
#[repr(C)]
#[derive(Clone, Copy, Debug, PartialEq, Eq)]
pub struct Features {
    pub vhe: bool,
    pub sel2: bool,
    pub ecv: bool,
}

// The controls that demand 3 speaks of: the facts of SCR_EL3 and HCR_EL2, and the two control registers.
#[repr(C)]
#[derive(Clone, Copy, Debug, PartialEq, Eq)]
pub struct Controls {
    pub ns: bool,
    pub eel2: bool,
    pub ecven: bool,
    pub e2h: bool,
    pub tge: bool,
    pub cntkctl: u32,
    pub cnthctl: u32,
}

#[repr(C)]
#[derive(Clone, Copy, Debug, PartialEq, Eq)]
pub struct Timer {
    pub cval: u64,
    pub enable: bool,
    pub imask: bool,
}

// The six timers, by name.
#[derive(Clone, Copy, Debug, PartialEq, Eq)]
pub enum TimerName {
    Cntp,
    Cntv,
    Cnthp,
    Cnthv,
    Cnthps,
    Cnthvs,
}

// Six fields and no array, here and in `Lines`: C has them by their names.
#[repr(C)]
#[derive(Clone, Copy, Debug, PartialEq, Eq)]
pub struct Timers {
    pub cntp: Timer,
    pub cntv: Timer,
    pub cnthp: Timer,
    pub cnthv: Timer,
    pub cnthps: Timer,
    pub cnthvs: Timer,
}

#[repr(C)]
#[derive(Clone, Copy, Debug, PartialEq, Eq)]
pub struct State {
    pub features: Features,
    pub controls: Controls,
    pub cntvoff: u64,
    pub cntpoff: u64,
    pub timers: Timers,
}
