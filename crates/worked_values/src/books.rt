//! Pools, what is ready, and which graphs have room: steps with `; ` between them, each with its answer.
use graph_file::Name;
use moment_core::Moment;
use pool_book::{Key, PoolFault, Pools, Ready, Rooms, Slots};
use std::alloc::{AllocError, Global};
use std::io;

// Pools, the keys that are offered, and which graphs have room.
#[derive(Drop)]
struct Book {
    pools: Pools,
    ready: Ready,
    rooms: Rooms,
    // How many numbers of graphs are reserved.
    count: usize,
}

/// Writes the answers to steps.
pub(crate) fn write_answer(rt: &HostRuntime, word: &str, rest: &str) -> io::Result<()> {
    let mut book = first_book(rt.alloc())?;
    match word {
        "steps" => write_steps(rt, &mut book, rest),
        _ => rt.print("no such word"),
    }
}

// No pool and no key; the number 0 is reserved, and its graph has room.
fn first_book(alloc: Global) -> Result<Book, AllocError> {
    let mut rooms = Rooms::new(alloc);
    set_room(&mut rooms, 1, (0, 0, 1))?;
    Ok(Book {
        pools: Pools::new(alloc),
        ready: Ready::new(alloc),
        rooms,
        count: 1,
    })
}

fn write_steps(rt: &HostRuntime, book: &mut Book, steps: &str) -> io::Result<()> {
    for (i, step) in steps.split("; ").enumerate() {
        rt.print(if i == 0 { "" } else { "; " })?;
        write_step(rt, book, step)?;
    }
    Ok(())
}

// Makes a step, and writes its answer.
fn write_step(rt: &HostRuntime, book: &mut Book, step: &str) -> io::Result<()> {
    let (word, rest) = step.split_once(' ').unwrap_or((step, ""));
    match word {
        "offer" => offer(rt, &mut book.ready, rest),
        "withdraw" => withdraw(rt, &mut book.ready, rest),
        "best" => write_best(rt, book),
        "hand" => hand(rt, book),
        "pools" => write_names(rt, &book.pools),
        "copy" => copy(rt, &mut book.pools),
        "vacant" => vacant(rt, &mut book.pools),
        "rooms" => write_rooms(rt, book, rest),
        "room" => write_room(rt, book, rest),
        _ => write_pool_step(rt, &mut book.pools, word, rest),
    }
}

// A step on the pool of a name: `WORD NAME` or `WORD NAME SLOTS`.
fn write_pool_step(rt: &HostRuntime, pools: &mut Pools, word: &str, rest: &str) -> io::Result<()> {
    let (name, number) = rest.split_once(' ').unwrap_or((rest, "0"));
    let Ok(name) = Name::read(rt.alloc(), name) else {
        return rt.print("no name");
    };
    let Some(slots) = number.parse().ok().and_then(Slots::new) else {
        return rt.print("no slots");
    };
    match word {
        "pool" => write_pool(rt, pools, &name),
        "size" => rt.print(resize(pools, name, slots)),
        _ => rt.print(said(pools, word, &name, slots)),
    }
}

// What is answered to a step that changes no names.
fn said(pools: &mut Pools, word: &str, name: &Name, slots: Slots) -> &'static str {
    let is_done = match word {
        "take" => take(pools, name, slots),
        "give" => give(pools, name, slots),
        "fits" => pools.fits(name, slots),
        "reserve" => pools.reserve(name).is_ok(),
        "count" => {
            pools.occupy_counted(name, slots);
            true
        }
        _ => return "no such step",
    };
    if is_done { "yes" } else { "no" }
}

fn resize(pools: &mut Pools, name: Name, slots: Slots) -> &'static str {
    match pools.resize(name, slots) {
        Ok(()) => "yes",
        Err(PoolFault::TooManyPools) => "TooManyPools",
        Err(PoolFault::Memory) => "Memory",
    }
}

// Takes slots of a pool that is there.
fn take(pools: &mut Pools, name: &Name, slots: Slots) -> bool {
    match pools.occupied(name) {
        Some(taken) if taken <= 1_000_000_000 => {
            pools.occupy(name, slots);
            true
        }
        _ => false,
    }
}

// Gives slots of a pool back that are taken.
fn give(pools: &mut Pools, name: &Name, slots: Slots) -> bool {
    match pools.occupied(name) {
        Some(taken) if u64::from(slots.get()) <= taken => {
            pools.vacate(name, slots);
            true
        }
        _ => false,
    }
}

// The size of a pool, how many of its slots are taken, and how many are open.
fn write_pool(rt: &HostRuntime, pools: &Pools, name: &Name) -> io::Result<()> {
    let (size, taken, open) = (
        pools.size(name),
        pools.occupied(name),
        pools.open_slots(name),
    );
    match (size, taken, open) {
        (Some(size), Some(taken), Some(open)) => {
            let size = size.get();
            print!(rt; "size {size} taken {taken} open {open}")
        }
        _ => rt.print("none"),
    }
}

// The names of the pools.
fn write_names(rt: &HostRuntime, pools: &Pools) -> io::Result<()> {
    let count = pools.len();
    print!(rt; "{count}:")?;
    for (name, _) in pools.iter() {
        let name = name.as_str();
        print!(rt; " {name}")?;
    }
    Ok(())
}

// Goes on with a copy of the pools.
fn copy(rt: &HostRuntime, pools: &mut Pools) -> io::Result<()> {
    *pools = pools.copy(rt.alloc())?;
    rt.print("yes")
}

// Goes on with a copy of the pools of which nothing is taken.
fn vacant(rt: &HostRuntime, pools: &mut Pools) -> io::Result<()> {
    *pools = pools.vacant_copy(rt.alloc())?;
    rt.print("yes")
}

// Reserves the numbers of graphs below `N`.
fn write_rooms(rt: &HostRuntime, book: &mut Book, text: &str) -> io::Result<()> {
    let Ok(count) = text.parse::<usize>() else {
        return rt.print("no number");
    };
    if book.rooms.reserve(count).is_err() {
        return rt.print("no");
    }
    book.count = book.count.max(count);
    rt.print("yes")
}

// Says of a number that is reserved how many tries of its graph are active, and how many may be: `N ACTIVE BOUND`.
fn write_room(rt: &HostRuntime, book: &mut Book, text: &str) -> io::Result<()> {
    let Some(room) = room_of(text) else {
        return rt.print("no number");
    };
    let is_done = set_room(&mut book.rooms, book.count, room)?;
    rt.print(if is_done { "yes" } else { "no" })
}

fn room_of(text: &str) -> Option<(usize, u64, u64)> {
    let (n, rest) = text.split_once(' ')?;
    let (active, bound) = rest.split_once(' ')?;
    Some((n.parse().ok()?, active.parse().ok()?, bound.parse().ok()?))
}

// Says how many tries of a graph are active, and how many may be, where its number is below the count; the number is reserved then.
// Answers whether it is below.
fn set_room(
    rooms: &mut Rooms,
    count: usize,
    (n, active, bound): (usize, u64, u64),
) -> Result<bool, AllocError> {
    if n >= count {
        return Ok(false);
    }
    rooms.reserve(n + 1)?;
    rooms.set(n, active, bound);
    Ok(true)
}

// A key of pool `p` by `GRAPH TASK DATE WEIGHT SLOTS`, and behind these the number of its graph, which is 0 where none stands there.
fn key_of(alloc: Global, text: &str) -> Option<Key> {
    let (graph, rest) = text.split_once(' ')?;
    let (task, rest) = rest.split_once(' ')?;
    let rank = rank_of(rest)?;
    Some(key(names_of(alloc, graph, task)?, rank))
}

// The names of the graph, the task and the pool.
fn names_of(alloc: Global, graph: &str, task: &str) -> Option<(Name, Name, Name)> {
    let graph = Name::read(alloc, graph).ok()?;
    let task = Name::read(alloc, task).ok()?;
    let pool = Name::read(alloc, "p").ok()?;
    Some((graph, task, pool))
}

fn rank_of(text: &str) -> Option<(Moment, u64, Slots, usize)> {
    let (date, rest) = text.split_once(' ')?;
    let (weight, rest) = rest.split_once(' ')?;
    let (slots, room) = rest.split_once(' ').unwrap_or((rest, "0"));
    let logical = Moment::read(date).ok()?;
    let slots = slots.parse().ok().and_then(Slots::new)?;
    Some((logical, weight.parse().ok()?, slots, room.parse().ok()?))
}

fn key((graph, task, pool): (Name, Name, Name), rank: (Moment, u64, Slots, usize)) -> Key {
    let (logical, weight, slots, room) = rank;
    Key {
        weight,
        logical,
        graph,
        task,
        pool,
        slots,
        room,
    }
}

// Offers a key of an instance of which none is offered.
fn offer(rt: &HostRuntime, ready: &mut Ready, text: &str) -> io::Result<()> {
    let Some(key) = key_of(rt.alloc(), text) else {
        return rt.print("no key");
    };
    if ready.reserve(1).is_err() || ready.has_instance(&key) {
        return rt.print("no");
    }
    ready.offer(key);
    rt.print("yes")
}

// Withdraws a key.
fn withdraw(rt: &HostRuntime, ready: &mut Ready, text: &str) -> io::Result<()> {
    let Some(key) = key_of(rt.alloc(), text) else {
        return rt.print("no key");
    };
    ready.withdraw(&key);
    rt.print("yes")
}

// The graph and the task of the first key in rank that fits.
fn write_best(rt: &HostRuntime, book: &Book) -> io::Result<()> {
    match book.ready.best_fitting(&book.pools, &book.rooms) {
        Some(key) => {
            let (graph, task) = (key.graph.as_str(), key.task.as_str());
            print!(rt; "{graph} {task}")
        }
        None => rt.print("none"),
    }
}

// Hands the best key out: its slots are taken, and it is withdrawn.
fn hand(rt: &HostRuntime, book: &mut Book) -> io::Result<()> {
    let Some(best) = book.ready.best_fitting(&book.pools, &book.rooms) else {
        return rt.print("none");
    };
    let key = best.copy(rt.alloc())?;
    let is_taken = take(&mut book.pools, &key.pool, key.slots);
    book.ready.withdraw(&key);
    rt.print(if is_taken { "yes" } else { "no" })
}
