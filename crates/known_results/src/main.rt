// The known results of document 01 on the compiled engine, with the limits of length, the refusals, targets that tell wrong readings
// of "nearest" apart, and membership; and the same in more than four coordinates.
#![tactic(auto)]

ghost use Rattle.std.specs.Prelude.{◌≤◌, length};

use cli_output::Say;

// Writes the name of an input, then the answer.
fn answered(rt: &(impl Print + Say), name: &[u8], answer: &[u8]) {
    cli_output::write(rt, name);
    cli_output::newline(rt);
    cli_output::write(rt, answer);
}

// The reduction of an input.
fn reduced(rt: &(impl Print + Say), name: &[u8], numbers: &[i64], d: usize, m: usize) {
    let mut out = [0u8; cli_answers::MOST_BYTES];
    let n = cli_answers::put_reduction(&mut out, 0, &engine::reduce(numbers, d, m), d, m);
    answered(rt, name, &out[..n]);
}

// P1 to P8: what reduction gives.
fn reductions(rt: &(impl Print + Say)) {
    reduced(rt, b"P1", &[-3], 1, 1);
    reduced(rt, b"P2", &[1, 0, 4, 1], 2, 2);
    reduced(rt, b"P3", &[2, 0, 1, 3], 2, 2);
    reduced(rt, b"P4", &[2, 0, -1, 3], 2, 2);
    reduced(rt, b"P5", &[5, 8, 8, 13], 2, 2);
    reduced(
        rt,
        b"P6",
        &[2, 0, 0, 0, 0, 2, 0, 0, 0, 0, 2, 0, 1, 1, 1, 1],
        4,
        4,
    );
    reduced(rt, b"P7", &[0], 1, 1);
    reduced(rt, b"P8", &[1, 2, 2, 4], 2, 2);
}

// The limit of length, on both sides of it.
fn lengths(rt: &(impl Print + Say)) {
    reduced(rt, b"(20000)", &[20000], 1, 1);
    reduced(rt, b"(20001)", &[20001], 1, 1);
    reduced(rt, b"(20000,1)", &[20000, 1], 1, 2);
    reduced(
        rt,
        b"(10000,10000,10000,10000)",
        &[10000, 10000, 10000, 10000],
        1,
        4,
    );
    reduced(rt, b"the least number", &[i64::MIN], 1, 1);
}

// Counts that no list of vectors has.
fn counts(rt: &(impl Print + Say)) {
    reduced(rt, b"d = 0", &[1], 0, 1);
    reduced(rt, b"m = 8", &[1, 2, 3, 4, 5, 6, 7, -8], 1, 8);
    reduced(rt, b"m = 9", &[1, 2, 3, 4, 5, 6, 7, 8, 9], 1, 9);
    reduced(rt, b"three numbers for two by two", &[1, 0, 0], 2, 2);
}

// The vector nearest to the target.
fn near(rt: &(impl Print + Say), name: &[u8], numbers: &[i64], d: usize, m: usize, target: &[i64]) {
    let mut out = [0u8; cli_answers::MOST_BYTES];
    let n = cli_answers::put_nearest(&mut out, 0, &engine::nearest(numbers, d, m, target), d, m);
    answered(rt, name, &out[..n]);
}

// P9 and P10, and cases where a hasty search ends elsewhere.
fn targets(rt: &(impl Print + Say)) {
    near(rt, b"P9", &[2, 0, 0, 2], 2, 2, &[1, 1]);
    near(rt, b"P10", &[20, 0, 10, 20], 2, 2, &[14, 9]);
    near(
        rt,
        b"a tie beyond the table",
        &[1, 1, 0, 1, 0, 1, 1, 0, -1],
        3,
        3,
        &[0, -1, 0],
    );
    near(
        rt,
        b"two layers away",
        &[10, 10, 0, 0, 10, -10, 0, 0, 0, 0, 10, 10, 10, 0, 10, 0],
        4,
        4,
        &[0, 0, 6, -6],
    );
    near(rt, b"outside the span", &[2, 0, 0], 1, 3, &[3, 5, -7]);
    near(rt, b"in the lattice", &[5, 8, 8, 13], 2, 2, &[13, 21]);
}

// The limit of a target's length, a wrong count, and vectors that are refused before their target.
fn target_refusals(rt: &(impl Print + Say)) {
    near(rt, b"at the limit", &[1], 1, 1, &[20000]);
    near(rt, b"beyond the limit", &[1], 1, 1, &[-20001]);
    near(rt, b"too long", &[1, 0], 1, 2, &[20000, 1]);
    near(rt, b"too few numbers", &[1, 0], 1, 2, &[1]);
    near(
        rt,
        b"too many numbers, too long",
        &[1, 0],
        1,
        2,
        &[20001, 0, 0],
    );
    near(
        rt,
        b"dependent vectors, no target",
        &[1, 2, 2, 4],
        2,
        2,
        &[],
    );
}

// Whether the target is in the lattice.
fn in_lattice(
    rt: &(impl Print + Say),
    name: &[u8],
    numbers: &[i64],
    d: usize,
    m: usize,
    target: &[i64],
) {
    let mut out = [0u8; cli_answers::MOST_BYTES];
    let n = cli_answers::put_membership(&mut out, 0, engine::membership(numbers, d, m, target));
    answered(rt, name, &out[..n]);
}

// Targets in the lattice and outside, of it one that is in the span, and the refusals.
fn members(rt: &(impl Print + Say)) {
    in_lattice(rt, b"a vector of the basis", &[5, 8, 8, 13], 2, 2, &[8, 13]);
    in_lattice(rt, b"the zero vector", &[2, 0, 0, 2], 2, 2, &[0, 0]);
    in_lattice(rt, b"between the vectors", &[2, 0, 0, 2], 2, 2, &[1, 1]);
    in_lattice(
        rt,
        b"of the lattice that short vectors miss",
        &[2, 0, 0, 0, 0, 2, 0, 0, 0, 0, 2, 0, 1, 1, 1, 1],
        4,
        4,
        &[1, 1, 1, -1],
    );
    in_lattice(rt, b"beside the span", &[2, 0, 0], 1, 3, &[4, 0, 1]);
    in_lattice(rt, b"far away", &[1, 0, 0, 3], 2, 2, &[-20000, 0]);
    in_lattice(rt, b"far away, not in it", &[1, 0, 0, 3], 2, 2, &[0, 19999]);
    in_lattice(rt, b"a dependent basis", &[1, 2, 2, 4], 2, 2, &[1, 2]);
    in_lattice(rt, b"a target too long", &[1, 0], 1, 2, &[20000, 1]);
    in_lattice(rt, b"a target of another m", &[1, 0], 1, 2, &[1]);
}

// The numbers that a text lists, as far as there is room; how many there are.
fn listed(text: &[u8], numbers: &mut [i64]) -> usize
    ensures { result ≤ length numbers.new }
{
    text_parts::read_part(text, numbers).count
}

// The reduction of vectors whose numbers are listed in a text.
fn reduced_of(rt: &(impl Print + Say), name: &[u8], text: &[u8], d: usize, m: usize) {
    let mut numbers = [0i64; 32];
    let n = listed(text, &mut numbers);
    reduced(rt, name, &numbers[..n], d, m);
}

// A lattice whose vectors have the sum zero, from two bases; four doubled roots of E8; vectors that differ behind the fourth coordinate only; the
// limit of length; vectors that only the last coordinate keeps independent, and dependent ones.
fn wide_reductions(rt: &(impl Print + Say)) {
    reduced_of(
        rt,
        b"A4",
        b"1 -1 0 0 0  0 1 -1 0 0  0 0 1 -1 0  0 0 0 1 -1",
        4,
        5,
    );
    reduced_of(
        rt,
        b"A4 from another basis",
        b"1 -2 3 -1 -1  2 -3 6 -5 0  -1 5 -2 -6 4  2 -4 4 -5 3",
        4,
        5,
    );
    reduced_of(
        rt,
        b"four roots of E8",
        b"1 1 1 1 1 1 1 1  2 -2 0 0 0 0 0 0  0 2 -2 0 0 0 0 0  2 2 0 0 0 0 0 0",
        4,
        8,
    );
    reduced_of(
        rt,
        b"the last two of eight",
        b"0 0 0 0 0 0 5 8  0 0 0 0 0 0 8 13",
        2,
        8,
    );
    reduced_of(
        rt,
        b"eight times 7071",
        b"7071 7071 7071 7071 -7071 7071 7071 -7071",
        1,
        8,
    );
    reduced_of(
        rt,
        b"eight times 7072",
        b"7072 7072 7072 7072 -7072 7072 7072 -7072",
        1,
        8,
    );
    reduced_of(rt, b"20001 last of eight", b"0 0 0 0 0 0 0 20001", 1, 8);
    reduced_of(
        rt,
        b"alike but for the last coordinate",
        b"1 2 3 4 5 6 7 8  1 2 3 4 5 6 7 9",
        2,
        8,
    );
    reduced_of(
        rt,
        b"dependent in eight coordinates",
        b"1 2 3 4 5 6 7 8  1 0 0 0 0 0 0 1  3 4 6 8 10 12 14 17",
        3,
        8,
    );
}

// The search of vectors and a target whose numbers are listed in texts.
fn near_of(rt: &(impl Print + Say), name: &[u8], text: &[u8], d: usize, m: usize, point: &[u8]) {
    let mut numbers = [0i64; 32];
    let n = listed(text, &mut numbers);
    let mut target = [0i64; 8];
    let k = listed(point, &mut target);
    near(rt, name, &numbers[..n], d, m, &target[..k]);
}

// Targets in five and eight coordinates: equally near vectors, one beside the span, a target of four coordinates only, and one too long.
fn wide_targets(rt: &(impl Print + Say)) {
    near_of(
        rt,
        b"two vectors of five coordinates",
        b"2 -2 0 0 0  0 0 0 2 -2",
        2,
        5,
        b"3 -3 3 1 -1",
    );
    near_of(
        rt,
        b"a tie in five coordinates",
        b"2 -2 0 0 0  0 2 -2 0 0  0 0 2 -2 0  0 0 0 2 -2",
        4,
        5,
        b"1 1 0 -1 -1",
    );
    near_of(
        rt,
        b"a tie among roots of E8",
        b"1 1 1 1 1 1 1 1  2 -2 0 0 0 0 0 0  0 2 -2 0 0 0 0 0  2 2 0 0 0 0 0 0",
        4,
        8,
        b"2 0 0 0 0 0 0 0",
    );
    near_of(
        rt,
        b"beside the span of A4",
        b"1 -1 0 0 0  0 1 -1 0 0  0 0 1 -1 0  0 0 0 1 -1",
        4,
        5,
        b"7 3 -2 4 9",
    );
    near_of(rt, b"four numbers of five", b"0 0 0 0 1", 1, 5, b"0 0 0 0");
    near_of(
        rt,
        b"too long by the eighth",
        b"0 0 0 0 0 0 0 1",
        1,
        8,
        b"20000 0 0 0 0 0 0 1",
    );
}

// The membership of a target in a lattice, both listed in texts.
fn in_lattice_of(
    rt: &(impl Print + Say),
    name: &[u8],
    text: &[u8],
    d: usize,
    m: usize,
    point: &[u8],
) {
    let mut numbers = [0i64; 32];
    let n = listed(text, &mut numbers);
    let mut target = [0i64; 8];
    let k = listed(point, &mut target);
    in_lattice(rt, name, &numbers[..n], d, m, &target[..k]);
}

// Members of A4 and of the doubled roots of E8, and targets that the last coordinate keeps out.
fn wide_members(rt: &(impl Print + Say)) {
    in_lattice_of(
        rt,
        b"a vector of A4",
        b"1 -1 0 0 0  0 1 -1 0 0  0 0 1 -1 0  0 0 0 1 -1",
        4,
        5,
        b"3 -1 4 1 -7",
    );
    in_lattice_of(
        rt,
        b"its sum is not zero",
        b"1 -1 0 0 0  0 1 -1 0 0  0 0 1 -1 0  0 0 0 1 -1",
        4,
        5,
        b"3 -1 4 1 -6",
    );
    in_lattice_of(
        rt,
        b"a vector of the roots of E8",
        b"1 1 1 1 1 1 1 1  2 -2 0 0 0 0 0 0  0 2 -2 0 0 0 0 0  2 2 0 0 0 0 0 0",
        4,
        8,
        b"3 3 -5 -1 -1 -1 -1 -1",
    );
    in_lattice_of(
        rt,
        b"its last coordinate beside the span",
        b"1 1 1 1 1 1 1 1  2 -2 0 0 0 0 0 0  0 2 -2 0 0 0 0 0  2 2 0 0 0 0 0 0",
        4,
        8,
        b"3 3 -5 -1 -1 -1 -1 1",
    );
}

fn main(rt: HostRuntime) {
    reductions(&rt);
    lengths(&rt);
    counts(&rt);
    targets(&rt);
    target_refusals(&rt);
    members(&rt);
    wide_reductions(&rt);
    wide_targets(&rt);
    wide_members(&rt);
}
