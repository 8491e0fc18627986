// One call of `pattern_spectrum`: what it answers, and what is then in the list.
use crate::answers::Told;
use crate::words::{Bounds, Places};
use octagon::Octagon;
use spectrum::pattern_spectrum;
use std::io;

// The operands of a call.
#[derive(Clone, Copy)]
pub struct Call {
    pub plot: Octagon,
    pub frame: Octagon,
}

// What a list has before a call: 901, 902 and on.
fn fill(list: &mut [u64]) {
    for (k, n) in list.iter_mut().enumerate() {
        *n = (k % 65536) as u64 + 901;
    }
}

impl Call {
    // Makes the call with all places of a list.
    fn answer(&self, list: &mut [u64]) -> Told {
        fill(list);
        Told::from(pattern_spectrum(self.plot, self.frame, list))
    }

    // Makes the call, and gives a digest of what it answered and of the list.
    pub fn digest(&self, list: &mut [u64]) -> u64 {
        self.answer(list).digest(list)
    }

    // The same, with the call written on a line.
    pub fn tell(&self, rt: &impl Print, list: &mut [u64]) -> io::Result<u64> {
        let answer = self.answer(list);
        println!(rt;
            "plot{}, frame{}, places {}: {answer}, {}",
            Bounds(self.plot),
            Bounds(self.frame),
            list.len(),
            Places(list)
        )?;
        Ok(answer.digest(list))
    }
}
