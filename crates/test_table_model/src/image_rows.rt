//! Lawful and unlawful images, made by hand.

use crate::sketch::{Living, NO_PAST, Past, ROOT, Sketch, Spot, image};
use ledger::{KeptBirths, Posting, Totals};
use std::alloc::{AllocError, Global};
use std::test::Fail;
use table_image::{Image, ImageOne};

const BORN: Posting = Posting::Born {
    number: 2,
    generation: 0,
};

const ENTRY: Posting = Posting::Entry {
    number: 2,
    generation: 0,
};

const BACK: Posting = Posting::Back {
    number: 2,
    generation: 0,
};

const FORGET_ALL: Posting = Posting::Forget {
    number: 2,
    generation: 0,
    amount: u64::MAX,
};

const BORN_AGAIN: Posting = Posting::Born {
    number: 2,
    generation: 1,
};

const ENTRY_AGAIN: Posting = Posting::Entry {
    number: 2,
    generation: 1,
};

const OTHER_BORN: Posting = Posting::Born {
    number: 3,
    generation: 0,
};

const OPENING: Posting = Posting::Opening {
    number: 2,
    generation: 1,
    count: 2,
};

/// Number 2 was born twice, and of three entries one was given back.
const PAST: Past = Past {
    births: &[KeptBirths {
        number: 2,
        count: 2,
    }],
    totals: Totals {
        born: 2,
        entries: 3,
        backs: 0,
        forgotten: 1,
    },
};

const TWICE_COUNTED: Living = Living(2, 1, Spot::At(1, "a"), 2);

const LAWFUL: &[(&str, Sketch)] = &[
    (
        "the root alone",
        Sketch {
            nodes: &[ROOT],
            past: NO_PAST,
            postings: &[],
            pinning: &[],
            opened: &[],
        },
    ),
    (
        "a node that is counted",
        Sketch {
            nodes: &[ROOT, Living(2, 0, Spot::At(1, "a"), 1)],
            past: NO_PAST,
            postings: &[BORN, ENTRY],
            pinning: &[],
            opened: &[],
        },
    ),
    (
        "a cut node that lives by a pin",
        Sketch {
            nodes: &[ROOT, Living(2, 0, Spot::Cut, 0)],
            past: NO_PAST,
            postings: &[BORN, ENTRY, BACK],
            pinning: &[(5, 2)],
            opened: &[],
        },
    ),
    (
        "a number that was born again",
        Sketch {
            nodes: &[Living(2, 1, Spot::At(1, "b"), 1), ROOT],
            past: NO_PAST,
            postings: &[BORN, ENTRY, BACK, BORN_AGAIN, ENTRY_AGAIN],
            pinning: &[],
            opened: &[],
        },
    ),
    (
        "a cut node that lives by two open files",
        Sketch {
            nodes: &[ROOT, Living(2, 0, Spot::Cut, 0)],
            past: NO_PAST,
            postings: &[BORN, ENTRY, BACK],
            pinning: &[],
            opened: &[(2, 2, 0), (1, 2, 0)],
        },
    ),
    (
        "a node of a period that is closed",
        Sketch {
            nodes: &[ROOT, TWICE_COUNTED],
            past: PAST,
            postings: &[OPENING],
            pinning: &[],
            opened: &[],
        },
    ),
    (
        "a number whose births were kept",
        Sketch {
            nodes: &[ROOT, Living(2, 2, Spot::At(1, "a"), 1)],
            past: Past {
                births: &[
                    KeptBirths {
                        number: 2,
                        count: 1,
                    },
                    KeptBirths {
                        number: 2,
                        count: 1,
                    },
                ],
                totals: Totals {
                    born: 2,
                    entries: 2,
                    backs: 1,
                    forgotten: 1,
                },
            },
            postings: &[
                Posting::Born {
                    number: 2,
                    generation: 2,
                },
                Posting::Entry {
                    number: 2,
                    generation: 2,
                },
            ],
            pinning: &[],
            opened: &[],
        },
    ),
    (
        "an open file under the handle 0",
        Sketch {
            nodes: &[ROOT],
            past: NO_PAST,
            postings: &[],
            pinning: &[],
            opened: &[(0, 1, 0)],
        },
    ),
];

const UNLAWFUL: &[(&str, Sketch)] = &[
    (
        "nothing at all",
        Sketch {
            nodes: &[],
            past: NO_PAST,
            postings: &[],
            pinning: &[],
            opened: &[],
        },
    ),
    (
        "a node that was entered once more",
        Sketch {
            nodes: &[ROOT, Living(2, 0, Spot::At(1, "a"), 1)],
            past: NO_PAST,
            postings: &[BORN, ENTRY, ENTRY],
            pinning: &[],
            opened: &[],
        },
    ),
    (
        "a cut node alone",
        Sketch {
            nodes: &[ROOT, Living(2, 0, Spot::Cut, 0)],
            past: NO_PAST,
            postings: &[BORN, ENTRY, BACK],
            pinning: &[],
            opened: &[],
        },
    ),
    (
        "two requests with one id",
        Sketch {
            nodes: &[ROOT],
            past: NO_PAST,
            postings: &[],
            pinning: &[(5, 1), (5, 1)],
            opened: &[],
        },
    ),
    (
        "parents in a circle",
        Sketch {
            nodes: &[
                ROOT,
                Living(2, 0, Spot::At(3, "a"), 0),
                Living(3, 0, Spot::At(2, "a"), 0),
            ],
            past: NO_PAST,
            postings: &[BORN, OTHER_BORN],
            pinning: &[],
            opened: &[],
        },
    ),
    (
        "an opening where nothing was closed",
        Sketch {
            nodes: &[ROOT, TWICE_COUNTED],
            past: NO_PAST,
            postings: &[OPENING],
            pinning: &[],
            opened: &[],
        },
    ),
    (
        "an opening that carries what was given back",
        Sketch {
            nodes: &[ROOT, Living(2, 1, Spot::At(1, "a"), 3)],
            past: PAST,
            postings: &[Posting::Opening {
                number: 2,
                generation: 1,
                count: 3,
            }],
            pinning: &[],
            opened: &[],
        },
    ),
    (
        "an opening twice",
        Sketch {
            nodes: &[ROOT, TWICE_COUNTED],
            past: PAST,
            postings: &[
                OPENING,
                Posting::Opening {
                    number: 2,
                    generation: 1,
                    count: 0,
                },
            ],
            pinning: &[],
            opened: &[],
        },
    ),
    (
        "an opening of a generation that was not born",
        Sketch {
            nodes: &[ROOT, Living(2, 2, Spot::At(1, "a"), 2)],
            past: PAST,
            postings: &[Posting::Opening {
                number: 2,
                generation: 2,
                count: 2,
            }],
            pinning: &[],
            opened: &[],
        },
    ),
    (
        "an opening that stands behind an entry",
        Sketch {
            nodes: &[ROOT, Living(2, 1, Spot::At(1, "a"), 3)],
            past: PAST,
            postings: &[ENTRY_AGAIN, OPENING],
            pinning: &[],
            opened: &[],
        },
    ),
    (
        "births that were not all kept",
        Sketch {
            nodes: &[ROOT, TWICE_COUNTED],
            past: Past {
                births: &[KeptBirths {
                    number: 2,
                    count: 2,
                }],
                totals: Totals {
                    born: 3,
                    entries: 3,
                    backs: 0,
                    forgotten: 1,
                },
            },
            postings: &[OPENING],
            pinning: &[],
            opened: &[],
        },
    ),
    (
        "a closed node that is not carried on",
        Sketch {
            nodes: &[ROOT],
            past: PAST,
            postings: &[],
            pinning: &[],
            opened: &[],
        },
    ),
    (
        "forgets whose sum has 65 bits",
        Sketch {
            nodes: &[ROOT],
            past: NO_PAST,
            postings: &[BORN, ENTRY, FORGET_ALL, FORGET_ALL],
            pinning: &[],
            opened: &[],
        },
    ),
    (
        "an open file of a node that does not live",
        Sketch {
            nodes: &[ROOT],
            past: NO_PAST,
            postings: &[],
            pinning: &[],
            opened: &[(1, 2, 0)],
        },
    ),
    (
        "an open file of an earlier node of that number",
        Sketch {
            nodes: &[ROOT, Living(2, 1, Spot::At(1, "a"), 1)],
            past: NO_PAST,
            postings: &[BORN, ENTRY, BACK, BORN_AGAIN, ENTRY_AGAIN],
            pinning: &[],
            opened: &[(1, 2, 0)],
        },
    ),
    (
        "two open files with one handle",
        Sketch {
            nodes: &[ROOT],
            past: NO_PAST,
            postings: &[],
            pinning: &[],
            opened: &[(1, 1, 0), (1, 1, 0)],
        },
    ),
    (
        "a handle that was not given yet",
        Sketch {
            nodes: &[ROOT],
            past: NO_PAST,
            postings: &[],
            pinning: &[],
            opened: &[(3, 1, 0)],
        },
    ),
];

fn is_lawful(alloc: Global, sketch: &Sketch) -> Result<bool, AllocError> {
    let image = image(alloc, sketch)?;
    Ok(image.lawful())
}

/// Fails at the first sketch with another verdict.
fn judge(alloc: Global, sketches: &[(&str, Sketch)], are_lawful: bool) -> Result<(), Fail> {
    for (name, sketch) in sketches {
        if is_lawful(alloc, sketch)? != are_lawful {
            return Err(Fail::from(("judged otherwise", *name)));
        }
    }
    Ok(())
}

#[test]
fn images_are_lawful(rt: HostRuntime) -> Result<(), Fail> {
    judge(rt.alloc(), LAWFUL, true)
}

#[test]
fn images_are_not_lawful(rt: HostRuntime) -> Result<(), Fail> {
    judge(rt.alloc(), UNLAWFUL, false)
}

/// The same image in the form of an earlier version.
fn before(image: Image) -> ImageOne {
    ImageOne {
        nodes: image.nodes,
        postings: image.postings,
        records: image.records,
        holds: image.holds,
        files: image.files,
        counter: image.counter,
        last_handle: image.last_handle,
    }
}

const BEFORE: Sketch = Sketch {
    nodes: &[ROOT, Living(2, 1, Spot::At(1, "a"), 1)],
    past: NO_PAST,
    postings: &[BORN, ENTRY, BACK, BORN_AGAIN, ENTRY_AGAIN],
    pinning: &[],
    opened: &[(1, 2, 1)],
};

const OPENED: Sketch = Sketch {
    nodes: &[ROOT, TWICE_COUNTED],
    past: NO_PAST,
    postings: &[OPENING],
    pinning: &[],
    opened: &[],
};

/// Whether no period is closed in an image, and these are its postings.
fn is_unclosed(image: &Image, postings: &[Posting]) -> bool {
    image.births.as_slice().is_empty()
        && image.closed == Totals::nothing()
        && image.postings.as_slice() == postings
}

/// Takes over an image of an earlier version. It must be lawful, or must not, no period must be closed in it, and its postings must be
/// unchanged.
fn takes_over(alloc: Global, said: &Sketch, lawful: bool) -> Result<bool, AllocError> {
    let image = image(alloc, said)?;
    let taken = Image::take_over(before(image));
    Ok(taken.lawful() == lawful && is_unclosed(&taken, said.postings))
}

/// In that version no period was closed, so an opening is never lawful.
#[test]
fn images_of_before_are_taken_over(rt: HostRuntime) -> Result<(), Fail> {
    if takes_over(rt.alloc(), &BEFORE, true)? && takes_over(rt.alloc(), &OPENED, false)? {
        return Ok(());
    }
    Err(Fail::from("taken over otherwise"))
}
