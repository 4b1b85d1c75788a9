// One bond, judged when it is asked: no table of all bonds is made.
#![tactic(auto)]

ghost use Rattle.std.specs.Prelude.{◌≡◌, ◌≤◌, nat_abs};
ghost use Rattle.paper.specs.Panel.Takes.{is_cmr};
ghost use Rattle.columns.specs.Column.{shown};
ghost use Rattle.columns.specs.Rows.{Signable};
ghost use Rattle.judge.specs.Judged.{Prepared, Judgeable, BondOf, column_acts, KnownToAct};
ghost use Rattle.judge.specs.Drawn.{drawn_by, judged_on};

use paper::{Group, Mode, Sampler, Task};

// What all bonds of one growth share. In CMR it asks for the blue bonds, and with `grey` for the blue and the red ones.
#[derive(Clone, Copy)]
pub struct Rule {
    pub task: Task,
    pub grey: bool,
    pub sampler: Sampler,
    pub gauge: u8,
}

// The rule of a growth. gperm's gauge is read here, before any spin is written.
pub fn prepare(t: Task, grey: bool, spins: &[i8]) -> Rule
    requires { Signable t.mode t.n t.group spins.now t.reference }
    ensures { Prepared t grey spins.now result }
{
    let mode = t.mode;
    let group = t.group;
    let sampler = Sampler::new(t.temperature);
    let gauge = columns::gauge_at(mode, spins, t.n, group, t.reference);
    Rule {
        task: t,
        grey,
        sampler,
        gauge,
    }
}

// Whether a site with this column acts.
fn acts(rule: Rule, column: u8) -> bool
    requires { rule.task.group.len ≤ 8 }
    ensures { result ≡ column_acts rule column }
{
    let t = rule.task;
    let mode = t.mode;
    let group = t.group;
    let gauge = rule.gauge;
    column_rules::acts_column(mode, group, column ^ gauge)
}

// Whether a bond is drawn, in the two modes that draw. A bond that Jörg draws has two ends that act.
fn is_drawn(rule: Rule, coupling: i32, cut: f32, a: u8, b: u8) -> bool
    requires coupling_bound { nat_abs coupling ≤ 1000000 }
    requires len_bound { rule.task.group.len ≤ 8 }
    ensures { result ≡ drawn_by (is_cmr rule.task.mode) rule.grey rule.task rule.sampler (shown a) (shown b) coupling cut }
{
    let t = rule.task;
    let mode = t.mode;
    let group = t.group;
    let sampler = rule.sampler;
    if mode.is_cmr() {
        let kind = bonds::classify(a, b, coupling);
        if rule.grey {
            return bonds::draw_grey(kind, sampler, cut);
        }
        return bonds::draw_blue(kind, sampler, cut);
    }
    bonds::jorg_holds(coupling, group.len, a, b, sampler, cut)
}

// Whether the bond (from, e) holds whose ends have the columns a and b. Which of them is the first does not matter, but in a mode that does not draw
// its bonds the end with the column a is known to act, and is not looked at.
pub fn judge(
    rule: Rule,
    couplings: &[i32],
    cuts: &[f32],
    from: usize,
    e: usize,
    a: u8,
    b: u8,
) -> bool
    requires judgeable { Judgeable rule.task couplings.now cuts.now }
    requires bond_of { BondOf rule.task from e }
    requires known_to_act { KnownToAct rule a }
    ensures { result ≡ judged_on rule couplings.now cuts.now from e a b }
{
    let t = rule.task;
    let mode = t.mode;
    if mode.is_drawn() {
        let bond = from * t.d + e;
        return is_drawn(rule, couplings[bond], cuts[bond], a, b);
    }
    acts(rule, b)
}
