// Runs bench examples of the calls that are not starred. A line says the call, its number and its count, and for gates the rows written; for minimal lists also the looks.
// Then reductions of residues: the rank, the pivots and the rows.
#![tactic(auto)]

use questions::Figures;
use std::io;
use std::io::Print;

fn print_answer(rt: &impl Print, name: &str, a: Figures) -> io::Result<()> {
    print!(rt; "{name}: {} {}", a.number, a.count)
}

fn print_rows(rt: &impl Print, rows: &[u64]) -> io::Result<()> {
    for row in rows {
        print!(rt; " {row}")?;
    }
    Ok(())
}

// The rebuild of the empty list, in 64 rows.
fn rebuild_empty(rt: &impl Print, name: &str, n: u64) -> io::Result<()> {
    let list = [0u64; 0];
    let mut out = [0u64; 64];
    let a = rebuild::rebuild(n, &list, &mut out);
    print_answer(rt, name, questions::figures_of(a))?;
    println!(rt)
}

// The greedy list of the identity on 32 qubits, whose rows are the rebuild of the empty list.
fn greedy_identity(rt: &impl Print, name: &str, out: &mut [u64]) -> io::Result<()> {
    let list = [0u64; 0];
    let mut rows = [0u64; 64];
    let _ = rebuild::rebuild(32, &list, &mut rows);
    let a = transvection::clifford_to_transvections(32, &rows, out);
    print_answer(rt, name, questions::figures_of(a))?;
    println!(rt)
}

// A sequence of our six gates on 2 qubits.
fn sequence(rt: &impl Print, name: &str, bytes: &[u8]) -> io::Result<()> {
    let mut out = [0u64; 4];
    let sheet = sheets::six_gates();
    let action = gates::gate_action(2, &sheet, bytes, &mut out);
    print_answer(rt, name, questions::figures_of(action))?;
    if action.is_ok() {
        print_rows(rt, &out)?;
    }
    println!(rt)
}

// The minimal list of an action on 2 qubits.
fn minimal(
    rt: &impl Print,
    name: &str,
    rows: &[u64],
    budget: u64,
    out: &mut [u64],
) -> io::Result<()> {
    let least = transvection_exact::clifford_to_transvections_minimal(2, rows, budget, out);
    let a = transvection_exact::figures_of(least);
    print_answer(rt, name, a)?;
    print!(rt; " {}", a.looks)?;
    if least.is_ok() {
        print_rows(rt, out)?;
    }
    println!(rt)
}

// Minimal lists: 4 words are too few on 2 qubits and 5 are enough; the smallest action on which the paper's test is wrong needs r + 1 turns.
fn minimals(rt: &impl Print) -> io::Result<()> {
    let mut four = [0u64; 4];
    minimal(rt, "minimal 2, SWAP, 4 words", &[2, 1, 8, 4], 0, &mut four)?;
    let mut five = [0u64; 5];
    minimal(rt, "minimal 2, SWAP, 5 words", &[2, 1, 8, 4], 0, &mut five)?;
    let mut words = [0u64; 5];
    minimal(
        rt,
        "minimal 2, rows 1 3 c b",
        &[1, 3, 12, 11],
        1000000,
        &mut words,
    )
}

fn print_first(rt: &impl Print, k: usize, rows: &[u64]) -> io::Result<()> {
    print_rows(rt, &rows[..k.min(rows.len())])
}

// The reduction of the residue of an action on 2 qubits, which has 4 rows and 4 columns.
fn reduced(rt: &impl Print, name: &str, rows: &[u64]) -> io::Result<()> {
    let mut w = [0u64; 4];
    let mut t = [0u64; 4];
    let mut p = [0; 4];
    residue::residue(actions::from_words(2, rows), &mut w);
    let rank = reduction::row_reduce_with_transform(4, &mut w, &mut t, &mut p);
    print!(rt; "{name}: rank {rank}, pivots")?;
    let pivots = [p[0] as u64, p[1] as u64, p[2] as u64, p[3] as u64];
    print_first(rt, rank, &pivots)?;
    print!(rt; ", rows")?;
    let mut out = [0u64; 4];
    matrices::lay(2, &w, &mut out);
    print_rows(rt, &out)?;
    println!(rt)
}

fn main(rt: HostRuntime) -> io::Result<()> {
    rebuild_empty(&rt, "rebuild 32", 32)?;
    rebuild_empty(&rt, "rebuild 33", 33)?;
    let mut enough = [0u64; 130];
    greedy_identity(&rt, "greedy 32, 130 words", &mut enough)?;
    let mut short = [0u64; 129];
    greedy_identity(&rt, "greedy 32, 129 words", &mut short)?;
    sequence(&rt, "gates 2, SWAP 0 1", &[5, 0, 1])?;
    sequence(&rt, "gates 2, CX 1 1", &[3, 1, 1])?;
    sequence(&rt, "gates 2, SWAP 0 1 and 2 bytes more", &[5, 0, 1, 9, 9])?;
    sequence(&rt, "gates 2, 2 bytes", &[9, 9])?;
    minimals(&rt)?;
    reduced(&rt, "reduction 2, CX 0 1", &[3, 2, 4, 12])?;
    reduced(&rt, "reduction 2, rows 1 3 c b", &[1, 3, 12, 11])
}
