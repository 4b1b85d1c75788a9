// The types of document 01. Its definitions are in specs/, read in the order of specs/Lib.antt.
#![tactic(auto)]

ghost use Rattle.std.specs.Prelude.{◌≡◌};
ghost use Rattle.paper.specs.Site.Bonds.{sampler_of};
ghost use Rattle.paper.specs.Refusal.Numbers.{number_of};
ghost use Rattle.paper.specs.Panel.Takes.{is_houd, is_perm, is_gperm, is_cmr, is_drawn, is_sw, one_cluster, grows_by, labels_by, moves};
ghost use Rattle.paper.specs.Panel.Takes.{flips_by, perms_by, choices_by, greys_by, grey_labels_by, keeps_by, entries, choice_width};

// A group: its size and up to eight system numbers.
#[derive(Clone, Copy)]
pub struct Group {
    pub len: usize,
    pub systems: [usize; 8],
}

#[derive(Clone, Copy, PartialEq, Eq, Debug)]
pub enum Mode {
    Houd,
    Pair,
    Perm,
    Gperm,
    Jorg,
    Cmr,
}

#[derive(Clone, Copy, PartialEq, Eq, Debug)]
pub enum Form {
    Sw,
    Wolff,
    Observe,
    Grow,
}

impl Mode {
    // Chooses permutations.
    pub fn is_perm(self) -> bool
        ensures { result ≡ is_perm self }
    {
        matches!(self, Mode::Perm | Mode::Gperm)
    }

    // Negates both of two replicas; of more only observed.
    pub fn is_houd(self) -> bool
        ensures { result ≡ is_houd self }
    {
        matches!(self, Mode::Houd)
    }

    // Takes a reference site.
    pub fn is_gperm(self) -> bool
        ensures { result ≡ is_gperm self }
    {
        matches!(self, Mode::Gperm)
    }

    // Has grey components beside the blue ones.
    pub fn is_cmr(self) -> bool
        ensures { result ≡ is_cmr self }
    {
        matches!(self, Mode::Cmr)
    }

    // Draws its bonds.
    pub fn is_drawn(self) -> bool
        ensures { result ≡ is_drawn self }
    {
        matches!(self, Mode::Jorg | Mode::Cmr)
    }

    pub fn takes_flips(self, form: Form) -> bool
        ensures { result ≡ flips_by self form }
    {
        form.is_sw() & !self.is_perm()
    }

    pub fn takes_perms(self, form: Form) -> bool
        ensures { result ≡ perms_by self form }
    {
        form.moves() & self.is_perm()
    }

    // Takes choices: flips or permutations.
    pub fn takes_choices(self, form: Form) -> bool
        ensures { result ≡ choices_by self form }
    {
        self.takes_flips(form) | self.takes_perms(form)
    }

    // How many bytes one choice has, in a group of m.
    pub fn choice_width(self, m: usize) -> usize
        ensures { result ≡ choice_width self m }
    {
        if self.is_perm() { m } else { 1 }
    }

    pub fn takes_greys(self, form: Form) -> bool
        ensures { result ≡ greys_by self form }
    {
        form.moves() & self.is_cmr()
    }

    pub fn takes_grey_labels(self, form: Form) -> bool
        ensures { result ≡ grey_labels_by self form }
    {
        form.labels() & self.takes_greys(form)
    }
}

impl Form {
    // Moves every component.
    pub fn is_sw(self) -> bool
        ensures { result ≡ is_sw self }
    {
        matches!(self, Form::Sw)
    }

    // Moves the component of a seed.
    pub fn one_cluster(self) -> bool
        ensures { result ≡ one_cluster self }
    {
        matches!(self, Form::Wolff | Form::Grow)
    }

    // Finds that component alone and writes its members.
    pub fn grows(self) -> bool
        ensures { result ≡ grows_by self }
    {
        matches!(self, Form::Grow)
    }

    // Finds every component and writes labels, counts and sizes.
    pub fn labels(self) -> bool
        ensures { result ≡ labels_by self }
    {
        !self.grows()
    }

    // Moves at all.
    pub fn moves(self) -> bool
        ensures { result ≡ moves self }
    {
        matches!(self, Form::Sw | Form::Wolff | Form::Grow)
    }

    // How many entries a buffer of choices has.
    pub fn entries(self, n: usize) -> usize
        ensures { result ≡ entries self n }
    {
        match self {
            Form::Sw => n,
            Form::Wolff | Form::Grow => 1,
            Form::Observe => 0,
        }
    }
}

// What a move keeps beside the spins: nothing, or each system's energy.
#[derive(Clone, Copy, PartialEq, Eq, Debug)]
pub enum Keeps {
    Nothing,
    Totals,
}

impl Keeps {
    // Keeps totals. To observe moves nothing, and keeps none.
    pub fn totals(self, form: Form) -> bool
        ensures { result ≡ keeps_by self form }
    {
        match self {
            Keeps::Nothing => false,
            Keeps::Totals => form.moves(),
        }
    }
}

// The numbers of one move: all that it is handed by value.
#[derive(Clone, Copy)]
pub struct Task {
    pub mode: Mode,
    pub form: Form,
    pub keeps: Keeps,
    pub n: usize,
    pub d: usize,
    pub s: usize,
    pub group: Group,
    pub temperature: f32,
    pub reference: usize,
    pub seed: usize,
}

// The numbers of a sweep over t temperatures of r replicas, `systems` of the panel's s in all, in groups of `members`.
#[derive(Clone, Copy)]
pub struct Plan {
    pub mode: Mode,
    pub form: Form,
    pub keeps: Keeps,
    pub n: usize,
    pub d: usize,
    pub s: usize,
    pub systems: usize,
    pub t: usize,
    pub r: usize,
    pub members: usize,
}

// How many elements each buffer has that a move may be lent.
#[derive(Clone, Copy)]
pub struct Lengths {
    pub spins: usize,
    pub fwd: usize,
    pub bwd: usize,
    pub pins: usize,
    pub couplings: usize,
    pub cuts: usize,
    pub choices: usize,
    pub greys: usize,
    pub labels: usize,
    pub grey_labels: usize,
    pub counts: usize,
    pub sizes: usize,
    pub members: usize,
    pub found: usize,
    pub grey_found: usize,
}

// The refusals, each with its number: what is wrong with an input.
#[derive(Clone, Copy, PartialEq, Eq, Debug)]
pub enum Refusal {
    Sizes,
    Lengths,
    Spins,
    Tables,
    Systems,
    Couplings,
    Temperature,
    Cuts,
    Choices,
    Seed,
    Frames,
    Draws,
    EdgeList,
    Totals,
    HoudOfMany,
}

impl Refusal {
    pub fn number(self) -> u8
        ensures { result ≡ number_of self }
    {
        match self {
            Refusal::Sizes => 1,
            Refusal::Lengths => 2,
            Refusal::Spins => 3,
            Refusal::Tables => 4,
            Refusal::Systems => 5,
            Refusal::Couplings => 6,
            Refusal::Temperature => 7,
            Refusal::Cuts => 8,
            Refusal::Choices => 9,
            Refusal::Seed => 10,
            Refusal::Frames => 11,
            Refusal::Draws => 12,
            Refusal::EdgeList => 13,
            Refusal::Totals => 14,
            Refusal::HoudOfMany => 15,
        }
    }
}

// What becomes of an accepted move: no site acts, a pin holds the seed's component, or it moves.
#[derive(Clone, Copy, PartialEq, Eq, Debug)]
pub enum Outcome {
    Idle,
    Held,
    Moved,
}

// A temperature with the scales 4/T and 2/T.
#[derive(Clone, Copy)]
pub struct Sampler {
    pub temperature: f32,
    pub four: f32,
    pub two: f32,
}

#[derive(Clone, Copy)]
pub enum BondKind {
    None,
    Blue(f32),
    Red(f32),
}

impl Sampler {
    pub fn new(t: f32) -> Sampler
        ensures { result ≡ sampler_of t }
    {
        Sampler {
            temperature: t,
            four: 4.0 / t,
            two: 2.0 / t,
        }
    }
}

// Of an accepted sweep: how many unmasked tasks were idle, how many moved and how many were held.
#[derive(Clone, Copy, PartialEq, Eq, Debug)]
pub struct Counts {
    pub idle: u32,
    pub moved: u32,
    pub held: u32,
}
