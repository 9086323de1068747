// The calls for C programs. Each puts the numbers of its answer at the front of a lent area and returns how many they are. Where that area has
// too few words for any answer, the call changes nothing at all and returns how many are needed. No pointer is kept.
#![tactic(auto)]

ghost use Rattle.std.specs.Prelude.{◌≤◌, ◌≡◌, ℕ, List, [], ◌∷◌, length};
ghost use Rattle.answer.specs.Refusal.{refusal_numbers, answer_numbers};
ghost use Rattle.capi.specs.work.Values.{option_values, case_values, booking_values, loop_values};
ghost use Rattle.capi.specs.Written.{answer_words, if_room, Answers, body_numbers};
ghost use Rattle.bundle.specs.Record.{kind_number, record_answer};
ghost use Rattle.bundle.specs.Bundle.{is_taken, read_answer, nodes_of, ends_of, counts_of, leaves};
ghost use Rattle.bundle.specs.Written.{bundle_bytes, is_written, write_answer};
ghost use Rattle.face.specs.Face.{joined_by, unjoined_by, face_answer};
ghost use Rattle.face.specs.Join.{how_numbers, why_number};
ghost use Rattle.flat.specs.FlatGrid.{flat_of};
ghost use Rattle.flat.specs.Join.{triangle_answer};
ghost use Rattle.flat.specs.Rows.{flat_answer};
ghost use Rattle.flat.specs.Answer.{chains_answer, chains_area};
ghost use Rattle.grid.specs.Grid.{grid_of};
ghost use Rattle.grid.specs.Rows.{grid_answer};
ghost use Rattle.grid.specs.Opening.{open_answer, open_starts};
ghost use Rattle.grid.specs.Setting.{set_answer, set_counts, set_starts};
ghost use Rattle.answer.specs.Answer.{result_of};
ghost use Rattle.cell.specs.Level.{by_edge};
ghost use Rattle.cases.specs.Answer.{case_answer};
ghost use Rattle.booking.specs.Answer.{booking_answer};
ghost use Rattle.mesh.specs.Answer.{mesh_answer, mesh_area, loops_answer};
ghost use Rattle.layers.specs.Answer.{run_answer, run_area, joined_answer, joined_area};
ghost use Rattle.places.specs.Answer.{places_answer, places_area};
ghost use Rattle.shading.specs.Answer.{shading_answer, shading_area};
ghost use Rattle.nearest.specs.Answer.{nearest_answer};

use answer::Refusal;
use booking::Booking;
use bundle::{HEAD_BYTES, Lists, Record};
use cases::Case;
use cell::{Loop, LoopType};
use face::{How, Join, Why};
use flat::FlatGrid;
use grid::Grid;
use mesh::Mesh;
use nearest::Nearest;
use place::Place;

// The words that hold any answer: CITTERNBLAZE_ANSWER_WORDS of the header.
// Stays: each call that writes other areas too tests this room by itself, since its clauses say of each area `if_room answer.old ..` (C interface): a function
// lent a closure would need as many clauses again.
const ANSWER_WORDS: usize = 6;

// Puts the numbers of an answer at the front of the area, and returns how many they are. The calls that write to other areas too ask for the
// room before they do.
fn put(answer: &mut [u64], numbers: &[u64]) -> usize
    requires { length numbers.now ≤ answer_words }
    ensures { Answers numbers.now answer.old answer.new result }
{
    if answer.len() < ANSWER_WORDS {
        return ANSWER_WORDS;
    }
    answer[..numbers.len()].copy_from_slice(numbers);
    numbers.len()
}

// Puts the numbers of a refusal.
fn put_refusal(answer: &mut [u64], refusal: Refusal) -> usize
    ensures { Answers (refusal_numbers refusal) answer.old answer.new result }
{
    put(answer, &[refusal.row.number() as u64, refusal.place as u64])
}

// What a call answers where it refuses nothing.
trait Value {
    // Its numbers after the 0 of a result.
    ghost values: { Self → List ℕ };

    // Puts the 0 and its numbers.
    fn put(self, answer: &mut [u64]) -> usize
        ensures { Answers (result_of (values self)) answer.old answer.new result };
}

impl Value for () {
    ghost values = { λ u. [] };

    fn put(self, answer: &mut [u64]) -> usize {
        put(answer, &[0])
    }
}

impl Value for u32 {
    ghost values = { λ n. n ∷ [] };

    fn put(self, answer: &mut [u64]) -> usize {
        put(answer, &[0, self as u64])
    }
}

impl Value for u64 {
    ghost values = { λ n. n ∷ [] };

    fn put(self, answer: &mut [u64]) -> usize {
        put(answer, &[0, self])
    }
}

impl Value for usize {
    ghost values = { λ n. n ∷ [] };

    fn put(self, answer: &mut [u64]) -> usize {
        put(answer, &[0, self as u64])
    }
}

impl Value for Mesh {
    ghost values = { λ m. m.triangles ∷ m.splits ∷ [] };

    fn put(self, answer: &mut [u64]) -> usize {
        put(answer, &[0, self.triangles, self.splits as u64])
    }
}

impl Value for Lists {
    ghost values = { λ l. l.cells ∷ l.edges ∷ [] };

    fn put(self, answer: &mut [u64]) -> usize {
        put(answer, &[0, self.cells as u64, self.edges as u64])
    }
}

impl Value for Record {
    ghost values = { λ r. kind_number r.kind ∷ r.next ∷ [] };

    fn put(self, answer: &mut [u64]) -> usize {
        put(answer, &[0, self.kind.number() as u64, self.next as u64])
    }
}

impl Value for Case {
    ghost values = { case_values };

    fn put(self, answer: &mut [u64]) -> usize {
        put(answer, &[0, self.loops as u64, self.triangles as u64])
    }
}

impl Value for Booking {
    ghost values = { booking_values };

    fn put(self, answer: &mut [u64]) -> usize {
        let b = self;
        put(
            answer,
            &[0, b.corners as u64, b.d1 as u64, b.d2 as u64, b.triangles],
        )
    }
}

impl Value for Loop {
    ghost values = { loop_values };

    fn put(self, answer: &mut [u64]) -> usize {
        let p = self.p0 as u64;
        let n = self.len as u64;
        let b = self.normal as u64;
        match self.kind {
            LoopType::Contractible => put(answer, &[0, p, n, b, 0]),
            LoopType::Corner(v) => put(answer, &[0, p, n, b, 1, v as u64]),
            LoopType::Diagonal(v) => put(answer, &[0, p, n, b, 2, v as u64]),
            LoopType::LowestCorner(v) => put(answer, &[0, p, n, b, 3, v as u64]),
        }
    }
}

// Nothing has no numbers.
impl<T: Value> Value for Option<T> {
    ghost values = { option_values T.values };

    fn put(self, answer: &mut [u64]) -> usize {
        match self {
            Some(value) => value.put(answer),
            None => put(answer, &[0]),
        }
    }
}

// Puts the numbers of what a call answers: those of its value, or of its refusal.
fn put_answer<T: Value>(answer: &mut [u64], told: Result<T, Refusal>) -> usize
    ensures { Answers (answer_numbers T.values told) answer.old answer.new result }
{
    match told {
        Ok(value) => value.put(answer),
        Err(refusal) => put_refusal(answer, refusal),
    }
}

// Puts the numbers of a crossing that is joined to another.
fn put_joined(answer: &mut [u64], edge: u32, index: u32, how: How) -> usize
    ensures { Answers (joined_by edge index (how_numbers how)) answer.old answer.new result }
{
    let e = edge as u64;
    let i = index as u64;
    match how {
        How::Round(w) => put(answer, &[0, e, i, 0, w as u64]),
        How::Along => put(answer, &[0, e, i, 1]),
    }
}

// Puts the numbers of a crossing that is unjoined.
fn put_unjoined(answer: &mut [u64], why: Why) -> usize
    ensures { Answers (unjoined_by (why_number why)) answer.old answer.new result }
{
    match why {
        Why::Left => put(answer, &[1, 0]),
        Why::Skipped => put(answer, &[1, 1]),
    }
}

// The face call: 0, the partner's edge and index, and how: 0 and the corner it goes round (0 a, 1 b, 2 c), or 1 along its edge; 1 unjoined, and why:
// 0 left by rule 2, 1 skipped by rule 3; 2 no such crossing.
#[unsafe(no_mangle)]
pub extern "C" fn citternblaze_face(
    ab: u16,
    ac: u16,
    bc: u16,
    edge: u32,
    index: u32,
    answer: &mut [u64],
) -> usize
    ensures { Answers (face_answer ab ac bc edge index) answer.old answer.new result }
{
    match face::face_join(ab, ac, bc, edge, index) {
        Join::Joined(e, i, how) => put_joined(answer, e, i, how),
        Join::Unjoined(why) => put_unjoined(answer, why),
        Join::NoCrossing => put(answer, &[2]),
    }
}

// The entry of a cell with these counts in the table of common cells: 0, its loops and its triangles; 0 alone where the cell is outside.
#[unsafe(no_mangle)]
pub extern "C" fn citternblaze_case(
    e01: u16,
    e02: u16,
    e03: u16,
    e12: u16,
    e13: u16,
    e23: u16,
    answer: &mut [u64],
) -> usize
    ensures { Answers (case_answer (by_edge (e01 ∷ e02 ∷ e03 ∷ e12 ∷ e13 ∷ e23 ∷ []))) answer.old answer.new result }
{
    cases::look_up([e01, e02, e03, e12, e13, e23]).put(answer)
}

// The booking of a cell with these counts: 0, the corner triangles, the two smaller numbers left at the lowest node, and the triangles; 0 alone where the
// cell is to be walked.
#[unsafe(no_mangle)]
pub extern "C" fn citternblaze_book(
    e01: u16,
    e02: u16,
    e03: u16,
    e12: u16,
    e13: u16,
    e23: u16,
    answer: &mut [u64],
) -> usize
    ensures { Answers (booking_answer (by_edge (e01 ∷ e02 ∷ e03 ∷ e12 ∷ e13 ∷ e23 ∷ []))) answer.old answer.new result }
{
    booking::book([e01, e02, e03, e12, e13, e23]).put(answer)
}

// The grid check: 0 and the number of crossings, or the number and the place of a refusal.
#[unsafe(no_mangle)]
pub extern "C" fn citternblaze_check(
    cells: &[u16],
    edges: &[u16],
    counts: &[u16],
    starts: &[u32],
    answer: &mut [u64],
) -> usize
    ensures { Answers (grid_answer (grid_of cells.now edges.now counts.now starts.now)) answer.old answer.new result }
{
    let grid = Grid {
        cells,
        edges,
        counts,
        starts,
    };
    put_answer(answer, grid::check(grid))
}

// The opening call: 0 and the number of crossings, and the starts are filled in; or the number and the place of a refusal, which leaves them as they
// are.
#[unsafe(no_mangle)]
pub extern "C" fn citternblaze_open(
    cells: &[u16],
    edges: &[u16],
    counts: &[u16],
    starts: &mut [u32],
    answer: &mut [u64],
) -> usize
    ensures answer { Answers (open_answer (grid_of cells.now edges.now counts.now starts.old)) answer.old answer.new result }
    ensures starts { starts.new ≡ if_room answer.old (open_starts (grid_of cells.now edges.now counts.now starts.old)) starts.old }
{
    if answer.len() < ANSWER_WORDS {
        return ANSWER_WORDS;
    }
    put_answer(answer, grid::open(cells, edges, counts, starts))
}

// The setting call: 0 and the number of crossings, and the count and the starts are set; or the number and the place of a refusal, which leaves them
// as they are.
#[unsafe(no_mangle)]
pub extern "C" fn citternblaze_set_count(
    cells: &[u16],
    edges: &[u16],
    counts: &mut [u16],
    starts: &mut [u32],
    edge: usize,
    count: u16,
    answer: &mut [u64],
) -> usize
    ensures answer { Answers (set_answer (grid_of cells.now edges.now counts.old starts.old) edge count) answer.old answer.new result }
    ensures counts { counts.new ≡ if_room answer.old (set_counts (grid_of cells.now edges.now counts.old starts.old) edge count) counts.old }
    ensures starts { starts.new ≡ if_room answer.old (set_starts (grid_of cells.now edges.now counts.old starts.old) edge count) starts.old }
{
    if answer.len() < ANSWER_WORDS {
        return ANSWER_WORDS;
    }
    let told = grid::set_count(cells, edges, counts, starts, edge, count);
    put_answer(answer, told)
}

// The mesh call: 0, the number of triangles and the number of splits, or the number and the place of a refusal, which leaves the area as it is.
#[unsafe(no_mangle)]
pub extern "C" fn citternblaze_mesh(
    cells: &[u16],
    edges: &[u16],
    counts: &[u16],
    starts: &[u32],
    area: &mut [u32],
    answer: &mut [u64],
) -> usize
    ensures answer { Answers (mesh_answer (grid_of cells.now edges.now counts.now starts.now) (length area.old)) answer.old answer.new result }
    ensures area { area.new ≡ if_room answer.old (mesh_area (grid_of cells.now edges.now counts.now starts.now) area.old) area.old }
{
    if answer.len() < ANSWER_WORDS {
        return ANSWER_WORDS;
    }
    let grid = Grid {
        cells,
        edges,
        counts,
        starts,
    };
    put_answer(answer, mesh::mesh(grid, area))
}

// One run's mesh, asked for by its number from 0: 0, the number of triangles and the number of splits, or the number and the place of a refusal, which
// leaves the area as it is.
#[unsafe(no_mangle)]
pub extern "C" fn citternblaze_mesh_run(
    cells: &[u16],
    edges: &[u16],
    counts: &[u16],
    starts: &[u32],
    cuts: &[u16],
    run: usize,
    area: &mut [u32],
    answer: &mut [u64],
) -> usize
    ensures answer { Answers (run_answer (grid_of cells.now edges.now counts.now starts.now) cuts.now run (length area.old)) answer.old answer.new result }
    ensures area { area.new ≡ if_room answer.old (run_area (grid_of cells.now edges.now counts.now starts.now) cuts.now run area.old) area.old }
{
    if answer.len() < ANSWER_WORDS {
        return ANSWER_WORDS;
    }
    let grid = Grid {
        cells,
        edges,
        counts,
        starts,
    };
    put_answer(answer, layers::mesh_run(grid, cuts, run, area))
}

// All runs' meshes joined, in the names of the whole: answers as the mesh call does, and leaves the area as it is where it refuses.
#[unsafe(no_mangle)]
pub extern "C" fn citternblaze_mesh_joined(
    cells: &[u16],
    edges: &[u16],
    counts: &[u16],
    starts: &[u32],
    cuts: &[u16],
    area: &mut [u32],
    answer: &mut [u64],
) -> usize
    ensures answer { Answers (joined_answer (grid_of cells.now edges.now counts.now starts.now) cuts.now (length area.old)) answer.old answer.new result }
    ensures area { area.new ≡ if_room answer.old (joined_area (grid_of cells.now edges.now counts.now starts.now) cuts.now area.old) area.old }
{
    if answer.len() < ANSWER_WORDS {
        return ANSWER_WORDS;
    }
    let grid = Grid {
        cells,
        edges,
        counts,
        starts,
    };
    put_answer(answer, layers::mesh_joined(grid, cuts, area))
}

// The loops call: 0, p0, the length, 1 for normal or 0, the type and its node; 0 alone where there is no such loop; or the number and the place of
// a refusal.
#[unsafe(no_mangle)]
pub extern "C" fn citternblaze_loops(
    cells: &[u16],
    edges: &[u16],
    counts: &[u16],
    starts: &[u32],
    cell: usize,
    index: usize,
    answer: &mut [u64],
) -> usize
    ensures { Answers (loops_answer (grid_of cells.now edges.now counts.now starts.now) cell index) answer.old answer.new result }
{
    let grid = Grid {
        cells,
        edges,
        counts,
        starts,
    };
    put_answer(answer, mesh::loops(grid, cell, index))
}

// The places call: 0 and the number of points, or the number and the place of a refusal, which leaves the area as it is.
#[unsafe(no_mangle)]
pub extern "C" fn citternblaze_places(
    cells: &[u16],
    edges: &[u16],
    counts: &[u16],
    starts: &[u32],
    nodes: &[f64],
    fractions: &[f64],
    area: &mut [f64],
    answer: &mut [u64],
) -> usize
    ensures answer { Answers (places_answer (grid_of cells.now edges.now counts.now starts.now) nodes.now fractions.now (length area.old)) answer.old answer.new result }
    ensures area { area.new ≡ if_room answer.old (places_area (grid_of cells.now edges.now counts.now starts.now) nodes.now fractions.now area.old) area.old }
{
    if answer.len() < ANSWER_WORDS {
        return ANSWER_WORDS;
    }
    let grid = Grid {
        cells,
        edges,
        counts,
        starts,
    };
    put_answer(answer, places::places(grid, nodes, fractions, area))
}

// The shading call: 0, or the number and the place of a refusal, which leaves the area as it is.
#[unsafe(no_mangle)]
pub extern "C" fn citternblaze_shading(
    cells: &[u16],
    edges: &[u16],
    counts: &[u16],
    starts: &[u32],
    area: &mut [u8],
    answer: &mut [u64],
) -> usize
    ensures answer { Answers (shading_answer (grid_of cells.now edges.now counts.now starts.now) (length area.old)) answer.old answer.new result }
    ensures area { area.new ≡ if_room answer.old (shading_area (grid_of cells.now edges.now counts.now starts.now) area.old) area.old }
{
    if answer.len() < ANSWER_WORDS {
        return ANSWER_WORDS;
    }
    let grid = Grid {
        cells,
        edges,
        counts,
        starts,
    };
    put_answer(answer, shading::shade(grid, area))
}

// The face call for a triangle of a flat grid: its answers are those of the face call.
#[unsafe(no_mangle)]
pub extern "C" fn citternblaze_flat_face(
    ab: u16,
    ac: u16,
    bc: u16,
    edge: u32,
    index: u32,
    answer: &mut [u64],
) -> usize
    ensures { Answers (triangle_answer ab ac bc edge index) answer.old answer.new result }
{
    match flat::flat_join(ab, ac, bc, edge, index) {
        Join::Joined(e, i, how) => put_joined(answer, e, i, how),
        Join::Unjoined(why) => put_unjoined(answer, why),
        Join::NoCrossing => put(answer, &[2]),
    }
}

// The check of a flat grid: 0 and the number of crossings, or the number and the place of a refusal.
#[unsafe(no_mangle)]
pub extern "C" fn citternblaze_flat_check(
    triangles: &[u16],
    edges: &[u16],
    counts: &[u16],
    answer: &mut [u64],
) -> usize
    ensures { Answers (flat_answer (flat_of triangles.now edges.now counts.now)) answer.old answer.new result }
{
    let grid = FlatGrid {
        triangles,
        edges,
        counts,
    };
    put_answer(answer, flat::check(grid))
}

// The chains call: 0 and the number of words, or the number and the place of a refusal, which leaves the area as it is.
#[unsafe(no_mangle)]
pub extern "C" fn citternblaze_flat_chains(
    triangles: &[u16],
    edges: &[u16],
    counts: &[u16],
    area: &mut [u32],
    answer: &mut [u64],
) -> usize
    ensures answer { Answers (chains_answer (flat_of triangles.now edges.now counts.now) (length area.old)) answer.old answer.new result }
    ensures area { area.new ≡ if_room answer.old (chains_area (flat_of triangles.now edges.now counts.now) area.old) area.old }
{
    if answer.len() < ANSWER_WORDS {
        return ANSWER_WORDS;
    }
    let grid = FlatGrid {
        triangles,
        edges,
        counts,
    };
    put_answer(answer, flat::chains(grid, area))
}

// One call of the record reader: 0, the kind of the record at a start and the next start, or the number and the place of a refusal.
#[unsafe(no_mangle)]
pub extern "C" fn citternblaze_record(bytes: &[u8], start: usize, answer: &mut [u64]) -> usize
    ensures { Answers (record_answer bytes.now start) answer.old answer.new result }
{
    put_answer(answer, bundle::record_at(bytes, start))
}

// The other: where in the bytes the body of the record at a start stands, and how many bytes it has; 0 and 0 where no record stands there.
#[unsafe(no_mangle)]
pub extern "C" fn citternblaze_record_body(bytes: &[u8], start: usize, answer: &mut [u64]) -> usize
    ensures { Answers (body_numbers bytes.now start) answer.old answer.new result }
{
    match bundle::record_at(bytes, start) {
        Ok(record) => {
            let from = start + HEAD_BYTES;
            put(answer, &[from as u64, (record.next - from) as u64])
        }
        Err(_) => put(answer, &[0, 0]),
    }
}

// The bundle reader: 0 and the numbers of cells and edges, or the number and the place of a refusal, which leaves the lists as they are.
#[unsafe(no_mangle)]
pub extern "C" fn citternblaze_bundle_read(
    bytes: &[u8],
    nodes: &mut [u16],
    ends: &mut [u16],
    counts: &mut [u16],
    answer: &mut [u64],
) -> usize
    ensures answer { Answers (read_answer bytes.now (length nodes.old) (length ends.old) (length counts.old)) answer.old answer.new result }
    ensures nodes { nodes.new ≡ if_room answer.old (leaves (is_taken bytes.now (length nodes.old) (length ends.old) (length counts.old)) (nodes_of bytes.now) nodes.old) nodes.old }
    ensures ends { ends.new ≡ if_room answer.old (leaves (is_taken bytes.now (length nodes.old) (length ends.old) (length counts.old)) (ends_of bytes.now) ends.old) ends.old }
    ensures counts { counts.new ≡ if_room answer.old (leaves (is_taken bytes.now (length nodes.old) (length ends.old) (length counts.old)) (counts_of bytes.now) counts.old) counts.old }
{
    if answer.len() < ANSWER_WORDS {
        return ANSWER_WORDS;
    }
    put_answer(answer, bundle::read(bytes, nodes, ends, counts))
}

// The bundle writer: 0 and the number of bytes written, or the number and the place of a refusal, which leaves the area as it is.
#[unsafe(no_mangle)]
pub extern "C" fn citternblaze_bundle_write(
    nodes: &[u16],
    ends: &[u16],
    counts: &[u16],
    area: &mut [u8],
    answer: &mut [u64],
) -> usize
    ensures answer { Answers (write_answer nodes.now ends.now counts.now (length area.old)) answer.old answer.new result }
    ensures area { area.new ≡ if_room answer.old (leaves (is_written nodes.now ends.now counts.now (length area.old)) (bundle_bytes nodes.now ends.now counts.now) area.old) area.old }
{
    if answer.len() < ANSWER_WORDS {
        return ANSWER_WORDS;
    }
    put_answer(answer, bundle::write(nodes, ends, counts, area))
}

// The nearest call: 0, the number of the nearest point and the bits of its squared distance; 0 alone where the list has no point; or the number
// and the place of a refusal.
#[unsafe(no_mangle)]
pub extern "C" fn citternblaze_nearest(
    points: &[f64],
    x: f64,
    y: f64,
    z: f64,
    answer: &mut [u64],
) -> usize
    ensures { Answers (nearest_answer points.now (record { x = x; y = y; z = z })) answer.old answer.new result }
{
    // Stays: a match of its own, since a distance has bits that tell it only where it is a number, which this call alone knows.
    match nearest::nearest_point(points, Place { x, y, z }) {
        Ok(Nearest::NoPoint) => put(answer, &[0]),
        Ok(Nearest::At(k, d)) => put(answer, &[0, k as u64, f64::to_bits(d)]),
        Err(refusal) => put_refusal(answer, refusal),
    }
}
