// For the probe's host, a C program: the refusal, the cells and the edges of a bundle, over its bytes.
#![tactic(auto)]

ghost use Rattle.std.specs.Prelude.{◌≡◌};
ghost use Rattle.host.specs.Host.{refusal_of, bundle_cells, bundle_edges};

// What the host is told: the number of the refusal or 0, the cells and the edges.
#[derive(Clone, Copy)]
struct Numbers {
    refusal: u32,
    cells: u64,
    edges: u64,
}

fn numbers_of(bytes: &[u8]) -> Numbers
    ensures { (result.refusal ≡ refusal_of bytes.now) × ((result.cells ≡ bundle_cells bytes.now) × (result.edges ≡ bundle_edges bytes.now)) }
{
    match bundle::scan(bytes) {
        Ok(lists) => Numbers {
            refusal: 0,
            cells: lists.cells as u64,
            edges: lists.edges as u64,
        },
        Err(refusal) => Numbers {
            refusal: refusal.row.number() as u32,
            cells: 0,
            edges: 0,
        },
    }
}

// The number of the bundle's refusal, or 0.
#[unsafe(no_mangle)]
pub extern "C" fn citternblaze_bundle_refusal(bytes: &[u8]) -> u32
    ensures { result ≡ refusal_of bytes.now }
{
    numbers_of(bytes).refusal
}

// The cells of a bundle, or 0 for a broken one.
#[unsafe(no_mangle)]
pub extern "C" fn citternblaze_bundle_cells(bytes: &[u8]) -> u64
    ensures { result ≡ bundle_cells bytes.now }
{
    numbers_of(bytes).cells
}

// The edges of a bundle, or 0 for a broken one.
#[unsafe(no_mangle)]
pub extern "C" fn citternblaze_bundle_edges(bytes: &[u8]) -> u64
    ensures { result ≡ bundle_edges bytes.now }
{
    numbers_of(bytes).edges
}
