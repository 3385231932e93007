// What the rows of the circular's table come to.
ghost use Rattle.factors.specs.Numbers.{NumbersOf};

use crate::Code;

// F2 and F4 of a code in 10^-4, and its daily factors in 10^-8.
#[derive(Clone, Copy)]
pub struct CodeNumbers {
    pub f2: u64,
    pub f4: u64,
    pub high: u64,
    pub low: u64,
}

pub fn code_numbers(code: Code) -> CodeNumbers
    ensures { NumbersOf code result }
{
    match code {
        Code::FCI => CodeNumbers {
            f2: 1_100,
            f4: 1_000,
            high: 100_058_694,
            low: 100_047_114,
        },
        Code::FPI => CodeNumbers {
            f2: 2_200,
            f4: 1_000,
            high: 100_064_307,
            low: 100_041_139,
        },
        Code::OFC => CodeNumbers {
            f2: 1_200,
            f4: 1_500,
            high: 100_046_928,
            low: 100_035_426,
        },
        Code::OFV => CodeNumbers {
            f2: 2_400,
            f4: 1_500,
            high: 100_052_505,
            low: 100_029_492,
        },
    }
}
