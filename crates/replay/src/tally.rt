// How many cases agree, by mode and form.
use crate::head::Head;
use std::fmt;

const MODES: [&str; 6] = ["houd", "pair", "perm", "gperm", "jorg", "cmr"];

const FORMS: [&str; 3] = ["SW", "Wolff", "observe"];

#[derive(Clone, Copy, Debug)]
struct Share {
    agree: u32,
    all: u32,
}

impl Share {
    fn note(&mut self, agrees: bool) {
        self.agree = self.agree.saturating_add(u32::from(agrees));
        self.all = self.all.saturating_add(1);
    }
}

impl fmt::Display for Share {
    fn fmt<W: fmt::Write>(&self, f: &mut fmt::Formatter<W>) -> fmt::Result {
        write!(f, "{} of {}", self.agree, self.all)
    }
}

#[derive(Debug, Drop)]
pub(crate) struct Tally {
    shares: [[Share; FORMS.len()]; MODES.len()],
    // How many of the cases that agree have each mark, from the lowest bit on.
    marks: [u32; 5],
    total: Share,
}

impl Tally {
    pub(crate) fn new() -> Tally {
        Tally {
            shares: [[Share { agree: 0, all: 0 }; FORMS.len()]; MODES.len()],
            marks: [0; 5],
            total: Share { agree: 0, all: 0 },
        }
    }

    pub(crate) fn note(&mut self, head: Head, agrees: bool) {
        self.total.note(agrees);
        if let Some(forms) = self.shares.get_mut(head.mode as usize)
            && let Some(share) = forms.get_mut(head.form as usize)
        {
            share.note(agrees);
        }
        if agrees {
            self.note_marks(head.marks);
        }
    }

    fn note_marks(&mut self, marks: u8) {
        let mut left = marks;
        for count in self.marks.iter_mut() {
            *count = count.saturating_add(u32::from(left & 1));
            left >>= 1;
        }
    }
}

impl fmt::Display for Tally {
    fn fmt<W: fmt::Write>(&self, f: &mut fmt::Formatter<W>) -> fmt::Result {
        for (mode, shares) in MODES.iter().zip(&self.shares) {
            for (form, share) in FORMS.iter().zip(shares) {
                writeln!(f, "{mode} {form}: {share}")?;
            }
        }
        let [odd, idle, alone, self_bond, double_bond] = self.marks;
        write!(
            f,
            "agreeing cases with odd N: {odd}, an idle task: {idle}, "
        )?;
        write!(f, "an acting component of one site: {alone}, ")?;
        writeln!(f, "a self-bond: {self_bond}, a double bond: {double_bond}")?;
        writeln!(f, "{} agree", self.total)
    }
}
