//! Steps that are taken one by one, and their answers in words. All here owns what the steps change, so that no test
//! does. A function that owns a map takes the prover minutes, and these are proved once for all maps.
use cell_units::NoMemory;
use std::alloc::Global;

/// What steps change and are asked of.
pub trait Played<S>: Drop {
    /// What is shown at a time, which no later step changes.
    type Seen: Drop;

    /// The allocator of the answers.
    fn alloc(&self) -> Global;

    /// An equal one.
    fn share(&self) -> Result<Self, NoMemory>;

    /// Takes a step, and returns its answer.
    fn take_step(&mut self, step: &S) -> Result<String, NoMemory>;

    /// What is shown now.
    fn seen(&self) -> Result<Self::Seen, NoMemory>;

    /// An equal one.
    fn share_seen(seen: &Self::Seen) -> Result<Self::Seen, NoMemory>;

    /// The answer to a step that asks what is shown.
    fn look(alloc: Global, seen: &Self::Seen, step: &S) -> Result<String, NoMemory>;
}

/// Takes steps one by one. It gives their answers, with `; ` between them.
fn take<S, P: Played<S>>(played: &mut P, steps: &[S]) -> Result<String, NoMemory> {
    let mut all = String::new(played.alloc());
    for step in steps {
        if all.len() > 0 {
            all.push_str("; ")?;
        }
        let told = played.take_step(step)?;
        all.push_str(told.as_str())?;
    }
    Ok(all)
}

/// Appends the answers to questions, with ` / ` before each.
fn push_looks<S, P: Played<S>>(
    alloc: Global,
    all: &mut String,
    seen: &P::Seen,
    steps: &[S],
) -> Result<(), NoMemory> {
    for step in steps {
        let told = P::look(alloc, seen, step)?;
        all.push_str(" / ")?;
        all.push_str(told.as_str())?;
    }
    Ok(())
}

/// Takes steps one by one. It gives their answers, with `; ` between them.
pub fn play<S, P: Played<S>>(mut played: P, steps: &[S]) -> Result<String, NoMemory> {
    take(&mut played, steps)
}

/// Takes the first steps, the second ones over an equal one, and then the third. It gives the answers of the last two,
/// with ` / ` between them.
pub fn play_apart<S, P: Played<S>>(
    mut played: P,
    before: &[S],
    apart: &[S],
    behind: &[S],
) -> Result<String, NoMemory> {
    let _told = take(&mut played, before)?;
    let mut all = play(played.share()?, apart)?;
    let told = take(&mut played, behind)?;
    all.push_str(" / ")?;
    all.push_str(told.as_str())?;
    Ok(all)
}

/// Takes the first steps and then the second ones. Then it asks the third of what was shown before these, and of what
/// is shared of that. It gives the answers of the second, and with ` / ` before each those of the third.
pub fn play_behind<S, P: Played<S>>(
    mut played: P,
    before: &[S],
    apart: &[S],
    behind: &[S],
) -> Result<String, NoMemory> {
    let _told = take(&mut played, before)?;
    let seen = played.seen()?;
    let mut all = take(&mut played, apart)?;
    let alloc = played.alloc();
    push_looks::<S, P>(alloc, &mut all, &seen, behind)?;
    let shared = P::share_seen(&seen)?;
    push_looks::<S, P>(alloc, &mut all, &shared, behind)?;
    Ok(all)
}

/// Two that are changed alike, of which one is plain.
pub trait History: Drop {
    /// Makes a random change of both, and returns whether they answer it alike and then show the same.
    fn turns_alike(&mut self) -> Result<bool, NoMemory>;
}

/// Takes so many turns. It gives the first after which the two don't agree.
pub fn first_difference<H: History>(mut history: H, turns: u32) -> Result<Option<u32>, NoMemory> {
    for turn in 0..turns {
        if !history.turns_alike()? {
            return Ok(Some(turn));
        }
    }
    Ok(None)
}
