// The head of a case, from which the lengths of its fields follow.
ghost use Rattle.std.specs.Prelude.{◌≤◌, IfOk};

use crate::bad_list::BadList;
use paper::{Form, Mode};

pub(crate) const HEAD_LENGTH: usize = 12;

#[derive(Clone, Copy)]
pub(crate) enum Kind {
    Move,
    Sweep,
}

#[derive(Clone, Copy)]
pub(crate) struct Head {
    pub(crate) kind: Kind,
    pub(crate) mode: Mode,
    pub(crate) form: Form,
    pub(crate) marks: u8,
    pub(crate) n: usize,
    pub(crate) d: usize,
    pub(crate) s: usize,
    pub(crate) members: usize,
    pub(crate) t: usize,
    pub(crate) r: usize,
    pub(crate) tasks: usize,
    ghost n_bound: { n ≤ 8 },
    ghost d_bound: { d ≤ 4 },
    ghost s_bound: { s ≤ 8 },
    ghost members_bound: { members ≤ 8 },
    ghost t_bound: { t ≤ 4 },
    ghost r_bound: { r ≤ 8 },
    ghost tasks_bound: { tasks ≤ 4 },
}

impl TryFrom<u8> for Kind {
    type Error = BadList;

    fn try_from(number: u8) -> Result<Kind, BadList> {
        match number {
            0 => Ok(Kind::Move),
            1 => Ok(Kind::Sweep),
            _ => Err(BadList::Sizes),
        }
    }
}

fn mode_of(number: u8) -> Result<Mode, BadList> {
    match number {
        0 => Ok(Mode::Houd),
        1 => Ok(Mode::Pair),
        2 => Ok(Mode::Perm),
        3 => Ok(Mode::Gperm),
        4 => Ok(Mode::Jorg),
        5 => Ok(Mode::Cmr),
        _ => Err(BadList::Sizes),
    }
}

fn form_of(number: u8) -> Result<Form, BadList> {
    match number {
        0 => Ok(Form::Sw),
        1 => Ok(Form::Wolff),
        2 => Ok(Form::Observe),
        _ => Err(BadList::Sizes),
    }
}

fn at_most(most: u16, number: u16) -> Result<usize, BadList>
    ensures { IfOk result (λ n. n ≤ most) }
{
    if number <= most {
        Ok(usize::from(number))
    } else {
        Err(BadList::Sizes)
    }
}

impl TryFrom<[u8; HEAD_LENGTH]> for Head {
    type Error = BadList;

    fn try_from(bytes: [u8; HEAD_LENGTH]) -> Result<Head, BadList> {
        let [
            kind,
            mode,
            form,
            marks,
            n_high,
            n_low,
            d,
            s,
            members,
            t,
            r,
            tasks,
        ] = bytes;
        Ok(Head {
            kind: Kind::try_from(kind)?,
            mode: mode_of(mode)?,
            form: form_of(form)?,
            marks,
            n: at_most(8, u16::from_be_bytes([n_high, n_low]))?,
            d: at_most(4, u16::from(d))?,
            s: at_most(8, u16::from(s))?,
            members: at_most(8, u16::from(members))?,
            t: at_most(4, u16::from(t))?,
            r: at_most(8, u16::from(r))?,
            tasks: at_most(4, u16::from(tasks))?,
        })
    }
}

// The length where it is taken, else none.
fn only(taken: bool, length: usize) -> usize
    ensures { result ≤ length }
{
    if taken { length } else { 0 }
}

// How many elements each buffer of the case has.
impl Head {
    pub(crate) fn bonds(&self) -> usize
        ensures { result ≤ 32 }
    {
        self.n * self.d
    }

    pub(crate) fn couplings(&self) -> usize
        ensures { result ≤ 32 }
    {
        only(self.mode.is_drawn(), self.bonds())
    }

    pub(crate) fn temperatures(&self) -> usize {
        only(self.mode.is_drawn(), self.t)
    }

    pub(crate) fn cuts(&self) -> usize {
        self.tasks * self.couplings()
    }

    pub(crate) fn references(&self) -> usize {
        only(self.mode.is_gperm(), self.tasks)
    }

    pub(crate) fn seeds(&self) -> usize {
        only(self.form.one_cluster(), self.tasks)
    }

    // How many entries each task's choices have.
    fn entries(&self) -> usize
        ensures { result ≤ 8 }
    {
        match self.form {
            Form::Sw => self.n,
            Form::Wolff | Form::Grow => 1,
            Form::Observe => 0,
        }
    }

    pub(crate) fn choices(&self) -> usize {
        let width = if self.mode.is_perm() { self.members } else { 1 };
        only(
            self.mode.takes_choices(self.form),
            self.tasks * self.entries() * width,
        )
    }

    pub(crate) fn greys(&self) -> usize {
        only(
            self.mode.takes_greys(self.form),
            self.tasks * self.entries(),
        )
    }

    pub(crate) fn labels(&self) -> usize
        ensures { result ≤ 32 }
    {
        self.tasks * self.n
    }

    pub(crate) fn grey_labels(&self) -> usize {
        only(self.mode.takes_greys(self.form), self.labels())
    }

    pub(crate) fn counts(&self) -> usize {
        self.labels() + self.tasks
    }

    pub(crate) fn grey_found(&self) -> usize {
        only(self.mode.takes_greys(self.form), self.tasks)
    }
}
