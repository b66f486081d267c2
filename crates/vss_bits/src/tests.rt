//! Rows of bits, with ample memory: each truth at its place, over the edges of words.

use crate::Bits;
use std::test::Fail;

#[test]
fn each_truth_stands_at_its_place(rt: HostRuntime) -> Result<(), Fail> {
    for count in [0u32, 1, 63, 64, 65, 128, 200] {
        let mut bits = Bits::with_room(rt.alloc(), count)?;
        for place in 0..count {
            assert!(rt; bits.len() < 1000);
            bits.push(place % 3 == 0 || place == 64)?;
        }
        assert_eq!(rt; bits.len(), count);
        for place in 0..300 {
            let want = place < count && (place % 3 == 0 || place == 64);
            assert_eq!(rt; bits.get(place), want);
        }
        assert!(rt; !bits.get(4_294_967_295));
    }
    Ok(())
}
