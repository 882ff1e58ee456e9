use draid_gen::workload;
use sha2::{Digest, Sha256};
use std::alloc::Global;

/// The lines of the workload 1 up to the restore, by a model of the generator in another language.
const FIRST_LINES: &str = "create draid2:4d:11c:1s 11 seed=1
lanes 4
0 fill 0 100 20480 1
1 fill 100 100 8192 1
2 fill 200 100 4096 1
3 fill 300 100 24576 1
end
sync
free 68
free 277
free 346
free 74
free 140
free 236
free 72
free 28
free 41
free 127
free 192
free 27
free 172
free 387
free 125
free 384
offline 5
spare 5 0
rebuild
scrub
replace 5
rebalance 5
sum 0 100
";

/// Workloads by their first lines and their digests, as the model has them.
static WORKLOADS: [(u64, &str, &str); 3] = [
    (
        1,
        FIRST_LINES,
        "4b60f0e773485ca8e372859477e6f48ce97423484e90a34c92c2be37d91cbec0",
    ),
    (
        2,
        "create ",
        "ac6d1f5fe4cdd0060cb23362f02958aa6412f4e456a3aad17a7e17fc855de441",
    ),
    (
        u64::MAX,
        "create ",
        "c074934199be34578131dd767852ff116c381d571f36f018234d6274c1a832c6",
    ),
];

/// Whether a script begins with these lines, and has this digest.
fn is_script(alloc: Global, script: &[u8], front: &str, digest: &str) -> bool {
    match hex::encode(alloc, &Sha256::digest(script)) {
        Ok(found) => found.as_str() == digest && script.starts_with(front.as_bytes()),
        Err(_) => false,
    }
}

/// Whether a workload does.
fn agrees(alloc: Global, number: u64, front: &str, digest: &str) -> bool {
    match workload(alloc, number) {
        Ok(script) => is_script(alloc, &script, front, digest),
        Err(_) => false,
    }
}

#[test]
fn agrees_with_a_model(rt: HostRuntime) {
    for (number, front, digest) in WORKLOADS.iter() {
        assert!(rt; agrees(rt.alloc(), *number, front, digest), "{number}");
    }
}
