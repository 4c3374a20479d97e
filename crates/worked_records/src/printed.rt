//! Rows, printed.
use record_rows::{AttemptRow, Rows};
use std::{fmt, io};

/// Prints the rows of all tables, a row a line, with their columns as sqlite3 prints them.
pub(crate) fn print_rows<R: Print>(rt: &R, rows: &Rows) -> io::Result<()> {
    print_whole(rt, rows)?;
    print_graphs(rt, rows)?;
    print_runs(rt, rows)?;
    print_instances(rt, rows)?;
    print_attempts(rt, rows)
}

fn print_whole<R: Print>(rt: &R, rows: &Rows) -> io::Result<()> {
    for m in &rows.metas {
        println!(rt;
            "meta {}|{}|{}|{}|{}",
            m.one, m.version, m.now, m.next_serial, m.lanes
        )?;
    }
    for p in &rows.pools {
        println!(rt; "pool {}|{}", p.name, p.size)?;
    }
    Ok(())
}

fn print_graphs<R: Print>(rt: &R, rows: &Rows) -> io::Result<()> {
    for d in &rows.dags {
        println!(rt; "dag {}|{}|{}", d.dag_id, d.body, d.paused)?;
    }
    for x in &rows.dag_limits {
        println!(rt; "dag_limit {}|{}", x.dag_id, x.max_active_tasks)?;
    }
    Ok(())
}

fn print_runs<R: Print>(rt: &R, rows: &Rows) -> io::Result<()> {
    for r in &rows.runs {
        print!(rt; "run {}|{}|{}|", r.dag_id, r.logical, r.data_start)?;
        println!(rt; "{}|{}|{}", r.data_end, r.kind, r.phase)?;
    }
    Ok(())
}

fn print_instances<R: Print>(rt: &R, rows: &Rows) -> io::Result<()> {
    for i in &rows.instances {
        print!(rt; "instance {}|{}|{}|", i.dag_id, i.logical, i.task_id)?;
        println!(rt; "{}|{}", i.verdict, i.since)?;
    }
    Ok(())
}

fn print_attempts<R: Print>(rt: &R, rows: &Rows) -> io::Result<()> {
    for a in &rows.attempts {
        print_attempt(rt, a)?;
    }
    Ok(())
}

fn print_attempt<R: Print>(rt: &R, a: &AttemptRow) -> io::Result<()> {
    print!(rt;
        "attempt {}|{}|{}|{}|",
        a.serial, a.dag_id, a.logical, a.task_id
    )?;
    let (started, ended, outcome) = (Column(a.started), Column(a.ended), Column(a.outcome));
    println!(rt; "{}|{}|{started}|{ended}|{outcome}", a.try_number, a.slots)
}

// A column, which is empty where it has no value.
#[derive(Clone, Copy)]
struct Column(Option<i64>);

impl fmt::Display for Column {
    fn fmt<W: fmt::Write>(&self, f: &mut fmt::Formatter<W>) -> fmt::Result {
        match self.0 {
            Some(value) => write!(f, "{value}"),
            None => Ok(()),
        }
    }
}
