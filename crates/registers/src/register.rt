// Each register by one name with its five encoding numbers (RULES, 'Instruction words and register names').
use crate::encoding::Encoding;
use rules::{Name, Part};

// One constant for each, which is the form that the paper asks for (RULES, 'Expected forms by place').
#[derive(Clone, Copy, Debug, PartialEq, Eq)]
pub struct Register {
    pub name: Name,
    pub encoding: Encoding,
}

// The numbers in the paper's order: op0, op1, CRn, CRm, op2. A macro, since a constant calls no function.
macro_rules! register {
    ($name:expr, $op0:literal, $op1:literal, $crn:literal, $crm:literal, $op2:literal) => {
        Register {
            name: $name,
            encoding: Encoding {
                op0: $op0,
                op1: $op1,
                crn: $crn,
                crm: $crm,
                op2: $op2,
            },
        }
    };
}

impl Register {
    pub const CNTPCT_EL0: Register = register!(Name::Cntpct, 3, 3, 14, 0, 1);

    pub const CNTVCT_EL0: Register = register!(Name::Cntvct, 3, 3, 14, 0, 2);

    pub const CNTPCTSS_EL0: Register = register!(Name::Cntpctss, 3, 3, 14, 0, 5);

    pub const CNTVCTSS_EL0: Register = register!(Name::Cntvctss, 3, 3, 14, 0, 6);

    pub const CNTP_TVAL_EL0: Register = register!(Name::Cntp(Part::Tval), 3, 3, 14, 2, 0);

    pub const CNTP_CTL_EL0: Register = register!(Name::Cntp(Part::Ctl), 3, 3, 14, 2, 1);

    pub const CNTP_CVAL_EL0: Register = register!(Name::Cntp(Part::Cval), 3, 3, 14, 2, 2);

    pub const CNTV_TVAL_EL0: Register = register!(Name::Cntv(Part::Tval), 3, 3, 14, 3, 0);

    pub const CNTV_CTL_EL0: Register = register!(Name::Cntv(Part::Ctl), 3, 3, 14, 3, 1);

    pub const CNTV_CVAL_EL0: Register = register!(Name::Cntv(Part::Cval), 3, 3, 14, 3, 2);

    pub const CNTVOFF_EL2: Register = register!(Name::Cntvoff, 3, 4, 14, 0, 3);

    pub const CNTHP_TVAL_EL2: Register = register!(Name::Cnthp(Part::Tval), 3, 4, 14, 2, 0);

    pub const CNTHP_CTL_EL2: Register = register!(Name::Cnthp(Part::Ctl), 3, 4, 14, 2, 1);

    pub const CNTHP_CVAL_EL2: Register = register!(Name::Cnthp(Part::Cval), 3, 4, 14, 2, 2);

    pub const CNTHVS_TVAL_EL2: Register = register!(Name::Cnthvs(Part::Tval), 3, 4, 14, 4, 0);

    pub const CNTHVS_CTL_EL2: Register = register!(Name::Cnthvs(Part::Ctl), 3, 4, 14, 4, 1);

    pub const CNTHVS_CVAL_EL2: Register = register!(Name::Cnthvs(Part::Cval), 3, 4, 14, 4, 2);

    pub const CNTKCTL_EL1: Register = register!(Name::Cntkctl, 3, 0, 14, 1, 0);

    pub const CNTHCTL_EL2: Register = register!(Name::Cnthctl, 3, 4, 14, 1, 0);

    pub const CNTPOFF_EL2: Register = register!(Name::Cntpoff, 3, 4, 14, 0, 6);

    // In the order of the name table.
    pub const ALL: [Register; 20] = [
        Register::CNTPCT_EL0,
        Register::CNTVCT_EL0,
        Register::CNTPCTSS_EL0,
        Register::CNTVCTSS_EL0,
        Register::CNTP_TVAL_EL0,
        Register::CNTP_CTL_EL0,
        Register::CNTP_CVAL_EL0,
        Register::CNTV_TVAL_EL0,
        Register::CNTV_CTL_EL0,
        Register::CNTV_CVAL_EL0,
        Register::CNTVOFF_EL2,
        Register::CNTHP_TVAL_EL2,
        Register::CNTHP_CTL_EL2,
        Register::CNTHP_CVAL_EL2,
        Register::CNTHVS_TVAL_EL2,
        Register::CNTHVS_CTL_EL2,
        Register::CNTHVS_CVAL_EL2,
        Register::CNTKCTL_EL1,
        Register::CNTHCTL_EL2,
        Register::CNTPOFF_EL2,
    ];
}
