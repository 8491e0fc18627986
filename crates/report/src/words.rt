// Numbers put on a page after a space, and the numbers of a line.
ghost use Rattle.std.specs.Prelude.{◌∷◌, map};
ghost use Rattle.report.specs.Decimal.{decimal, sign, signed_decimal};
ghost use Rattle.report.specs.Lines.{space, spaced};
ghost use Rattle.report.specs.Pages.{HasRoom, Written};

use crate::page::Page;

impl Page<'_> {
    // A number's minus sign, where it has one.
    #[tactic(auto, using(crate::proofs::Signs::no_sign, crate::proofs::Pages::written_nothing))]
    fn put_sign(&mut self, z: i32)
        requires { HasRoom self.old (sign z) }
        ensures { Written self.old (sign z) self.new }
    {
        if z < 0 {
            self.put_byte(b'-');
        }
    }

    // A signed number.
    fn put_signed_decimal(&mut self, z: i32)
        requires { HasRoom self.old (signed_decimal z) }
        ensures { Written self.old (signed_decimal z) self.new }
    {
        self.put_sign(z);
        self.put_decimal(z.unsigned_abs() as u64);
    }

    // A space and a signed number.
    pub fn put_integer(&mut self, z: i32)
        requires { HasRoom self.old (space ∷ signed_decimal z) }
        ensures { Written self.old (space ∷ signed_decimal z) self.new }
    {
        self.put_byte(b' ');
        self.put_signed_decimal(z);
    }

    // A space and a number.
    pub fn put_number(&mut self, n: u64)
        requires { HasRoom self.old (space ∷ decimal n) }
        ensures { Written self.old (space ∷ decimal n) self.new }
    {
        self.put_byte(b' ');
        self.put_decimal(n);
    }

    // The rest of a line: numbers, each after a space, and the newline.
    pub fn put_numbers(&mut self, values: &[u64])
        requires { HasRoom self.old (spaced (map decimal values.now)) }
        ensures { Written self.old (spaced (map decimal values.now)) self.new }
    {
        for value in values {
            self.put_number(*value);
        }
        self.put_byte(b'\n');
    }
}
