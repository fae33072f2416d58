//! Tables of tests as text: a row a line, behind lines of remarks that begin with `#`.
//!
//! A row is a neighbour's role and the neighbour, then the path as it is written, neighbour first, with the word `set` before it if there
//! is an AS_SET, then a verdict with its witness: `customer 3 | 3 2 1 | valid climbs 2 free 0 descents 0`.
use av_base::NoMemory;
use path_model::{Role, Trail, Verdict, Witness};
use std::alloc::Global;

/// A path that came from a neighbour, and what is said of it.
#[derive(Drop)]
pub struct Row {
    pub role: Role,
    pub neighbour: u32,
    pub trail: Trail,
    pub verdict: Verdict,
    pub witness: Witness,
}

/// Whether a line is a row.
pub fn is_row(line: &str) -> bool {
    !line.is_empty() && !line.starts_with('#')
}

/// The row of a line; what isn't one is an error.
pub fn read_row(alloc: Global, line: &str) -> Result<Row, NoMemory> {
    let Some((sender, rest)) = line.split_once('|') else {
        return Err(NoMemory);
    };
    let Some((path, words)) = rest.split_once('|') else {
        return Err(NoMemory);
    };
    let Some(role) = role_of(first_word(sender)) else {
        return Err(NoMemory);
    };
    let neighbour = numbers(alloc, sender)?;
    let [neighbour] = neighbour.as_slice() else {
        return Err(NoMemory);
    };
    let trail = read_path(alloc, path)?;
    let (verdict, witness) = read_shown(alloc, words)?;
    Ok(Row {
        role,
        neighbour: *neighbour,
        trail,
        verdict,
        witness,
    })
}

fn read_path(alloc: Global, path: &str) -> Result<Trail, NoMemory> {
    let ases = numbers(alloc, path)?;
    if ases.len() > 65_535 {
        return Err(NoMemory);
    }
    Trail::new(alloc, first_word(path) == "set", &ases)
}

/// A verdict and its witness: `invalid blocked 1 2`, or `valid climbs 1 free 0 descents 0`.
pub fn read_shown(alloc: Global, words: &str) -> Result<(Verdict, Witness), NoMemory> {
    let Some((verdict, why)) = words.trim().split_once(' ') else {
        return Err(NoMemory);
    };
    let Some(verdict) = verdict_of(verdict) else {
        return Err(NoMemory);
    };
    let numbers = numbers(alloc, why)?;
    match witness_of(first_word(why), &numbers) {
        Some(witness) => Ok((verdict, witness)),
        None => Err(NoMemory),
    }
}

fn witness_of(kind: &str, numbers: &[u32]) -> Option<Witness> {
    match kind {
        "empty" => Some(Witness::Empty),
        "set" => Some(Witness::Set),
        "neighbour" => Some(Witness::Neighbour),
        "climbs" => valid(numbers),
        "blocked" => blocked(numbers),
        "unsettled" => unsettled(numbers),
        _ => None,
    }
}

fn valid(numbers: &[u32]) -> Option<Witness> {
    let [climbs, free, descents] = numbers else {
        return None;
    };
    Some(Witness::Valid {
        climbs: *climbs,
        free: *free,
        descents: *descents,
    })
}

fn blocked(numbers: &[u32]) -> Option<Witness> {
    let (first, rest) = numbers.split_first()?;
    Some(Witness::Blocked {
        first: *first,
        last: rest.first().copied(),
    })
}

// The last hop is left out where there is none.
fn unsettled(numbers: &[u32]) -> Option<Witness> {
    let (first, rest) = numbers.split_first()?;
    let (last, labels) = match rest {
        [last, labels @ ..] if labels.len() == 3 => (Some(*last), labels),
        labels => (None, labels),
    };
    let [climbs, free, descents] = labels else {
        return None;
    };
    Some(Witness::Unsettled {
        first: *first,
        last,
        climbs: *climbs,
        free: *free,
        descents: *descents,
    })
}

fn verdict_of(word: &str) -> Option<Verdict> {
    match word {
        "valid" => Some(Verdict::Valid),
        "unknown" => Some(Verdict::Unknown),
        "invalid" => Some(Verdict::Invalid),
        _ => None,
    }
}

fn role_of(word: &str) -> Option<Role> {
    match word {
        "provider" => Some(Role::Provider),
        "customer" => Some(Role::Customer),
        "peer" => Some(Role::Peer),
        "rs" => Some(Role::Rs),
        "rs-client" => Some(Role::RsClient),
        "mutual" => Some(Role::Mutual),
        _ => None,
    }
}

fn first_word(text: &str) -> &str {
    text.split_whitespace().next().unwrap_or("")
}

// The words that are numbers.
fn numbers(alloc: Global, text: &str) -> Result<Vec<u32>, NoMemory> {
    let mut numbers = Vec::new(alloc);
    for word in text.split_whitespace() {
        if let Ok(number) = word.parse::<u32>() {
            numbers.push(number)?;
        }
    }
    Ok(numbers)
}
