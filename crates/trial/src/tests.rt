//! What trials are made of.

use crate::numbers::trial_numbers;
use crate::text::trial_text;
use std::test::Fail;

#[test]
fn numbers_of_a_few_trials(rt: HostRuntime) -> Result<(), Fail> {
    let alloc = rt.alloc();
    let rows = [
        (0, 20_000, -905_790_017, 1_027_795_841),
        (7, 20_070, -14_576_546, 774_437_725),
        (1_999, 29_990, 503_026_843, 1_053_475_257),
        (65_535, 25_350, 401_631_731, 878_314_654),
    ];
    for (n, count, first, last) in rows {
        let numbers = trial_numbers(alloc, n)?;
        assert_eq!(rt; numbers.len(), count, "of {n}");
        assert_eq!(rt; numbers.first().copied(), Some(first), "of {n}");
        assert_eq!(rt; numbers.last().copied(), Some(last), "of {n}");
    }
    Ok(())
}

/// The declarations and the first block of a trial's text.
const FRONT: &str =
    "array h[1024];\narray d[32768];\nvar s;\nvar m;\nfor i in 0..len(input) {\nlet x = input[i];\nlet y = x*3 + i;
d[i] = y & 65535;\nh[wrap y] += 1;\ns += y;\nm max= x;\n}\nprint s;\nfor i in 0..len(input) {\n";

/// The last block of a trial's text, and the print behind it.
const BACK: &str = "}\nprint s;\nfor i in 0..len(input) {\nlet x = input[i];\nlet y = x*33 + i;
d[i] = y & 65535;\nh[wrap y] += 1;\ns += y;\nm max= x;\n}\nprint s;\nprint m;\n";

#[test]
fn text_of_a_trial(rt: HostRuntime) -> Result<(), Fail> {
    let text = trial_text(rt.alloc())?;
    assert_eq!(rt; text.len(), 2_034);
    assert!(rt; text.starts_with(FRONT.as_bytes()));
    assert!(rt; text.ends_with(BACK.as_bytes()));
    Ok(())
}
