// The labels of a row, and the address rule.
ghost use Rattle.std.specs.Prelude.{◌≡◌};
ghost use Rattle.table.specs.Address.{adi_of};

// The three kinds of label, kept apart: `E00A9`, ADI 317 and register 0700h all mean SiAdr.
#[derive(Clone, Copy)]
pub struct ENumber(pub u16);

// A row's number in ADI.
#[derive(Clone, Copy)]
pub struct AdiNumber(pub u16);

// The address of a register of Modbus.
#[derive(Clone, Copy)]
pub struct Register(pub u16);

// A row, by its line in the table, counted from 0. There are 31; a greater number is a row that allows nothing and has no register.
#[derive(Clone, Copy)]
pub struct Row(pub usize);

impl Register {
    // The ADI number whose registers begin here: the address rule, 528 + 4 × (ADI − 1), read backwards.
    #[tactic(auto, using(base::proofs::Tests::tests), unfolding(crate::specs::Address::adi_of))]
    pub(crate) fn adi(self) -> Option<AdiNumber>
        ensures { result ≡ adi_of self.0 }
    {
        let above = self.0.checked_sub(528)?;
        (above % 4 == 0).then_some(AdiNumber(above / 4 + 1))
    }
}
