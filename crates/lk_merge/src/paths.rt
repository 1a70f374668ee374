use lk_val::NoMemory;
use std::alloc::Global;

/// For each place how many places are reached from it along bases, itself among them.
pub fn reach_counts(alloc: Global, places: &[Vec<usize>]) -> Result<Vec<usize>, NoMemory> {
    let mut counts = Vec::new(alloc);
    for start in 0..places.len() {
        counts.push(reach_count(alloc, places, start)?)?;
    }
    Ok(counts)
}

fn reach_count(alloc: Global, places: &[Vec<usize>], start: usize) -> Result<usize, NoMemory> {
    let mut parents = fresh(alloc, places.len())?;
    let mut queue = Vec::new(alloc);
    queue.push(start)?;
    for turn in 0..places.len() {
        if turn < queue.len() {
            let place = queue[turn];
            visit(&mut parents, &mut queue, places, place, start)?;
        }
    }
    Ok(queue.len())
}

/// The places on the shortest way from a place along bases back to it, without it; none where there is no way.
pub fn path_back(
    alloc: Global,
    places: &[Vec<usize>],
    start: usize,
) -> Result<Vec<usize>, NoMemory> {
    let mut parents = fresh(alloc, places.len())?;
    let mut queue = Vec::new(alloc);
    queue.push(start)?;
    for turn in 0..places.len() {
        if turn < queue.len() {
            let place = queue[turn];
            if leads_to(places, place, start) {
                return path_to(alloc, parents.as_slice(), start, place);
            }
            visit(&mut parents, &mut queue, places, place, start)?;
        }
    }
    Ok(Vec::new(alloc))
}

// No place has a parent yet.
fn fresh(alloc: Global, count: usize) -> Result<Vec<Option<usize>>, NoMemory> {
    let mut parents = Vec::new(alloc);
    for _ in 0..count {
        parents.push(None)?;
    }
    Ok(parents)
}

// Puts the bases of a place into the queue that are not in it yet.
fn visit(
    parents: &mut Vec<Option<usize>>,
    queue: &mut Vec<usize>,
    places: &[Vec<usize>],
    place: usize,
    start: usize,
) -> Result<(), NoMemory> {
    if place < places.len() {
        for base in places[place].as_slice() {
            if *base != start && *base < parents.len() && parents[*base].is_none() {
                parents[*base] = Some(place);
                queue.push(*base)?;
            }
        }
    }
    Ok(())
}

fn leads_to(places: &[Vec<usize>], place: usize, start: usize) -> bool {
    place < places.len() && places[place].as_slice().contains(&start)
}

fn path_to(
    alloc: Global,
    parents: &[Option<usize>],
    start: usize,
    last: usize,
) -> Result<Vec<usize>, NoMemory> {
    let mut path = Vec::new(alloc);
    let mut at = last;
    for _ in 0..parents.len() {
        if at != start && at < parents.len() {
            path.push(at)?;
            at = parents[at].unwrap_or(start);
        }
    }
    path.reverse();
    Ok(path)
}
