// Windows: the few stretches of an image in which a call may have written. Only they are kept before the call and
// compared after it. Beside them question 16, on the slices that such a call is lent.
#![tactic(auto)]

ghost use Rattle.std.specs.Prelude.{◌≡◌, ◌&&◌, ◌≤◌, ◌<◌};
ghost use Rattle.spec_changes.specs.Changes.{list_allowed, work_allowed};
ghost use Rattle.changes_windows.specs.Windows.{Sorted, Ahead};

// Four windows, in their order: from 0 up to end1, from from2 up to end2, and so on. They may touch, and be empty.
#[derive(Clone, Copy)]
pub struct Windows {
    pub end1: usize,
    pub from2: usize,
    pub end2: usize,
    pub from3: usize,
    pub end3: usize,
    pub from4: usize,
    pub end4: usize,
}

// A window, or what is left of it.
#[derive(Clone, Copy)]
pub struct Window {
    pub from: usize,
    pub end: usize,
}

// The greater of two places.
fn later(a: usize, b: usize) -> usize
    ensures { (a ≤ result) × (b ≤ result) × (a < result → result ≡ b) }
{
    if a < b {
        return b;
    }
    a
}

// What is left from i on of the first window that ends above i; where none does, nothing at the image's end.
pub fn ahead(w: Windows, i: usize, size: usize) -> Window
    requires { Sorted w size × (i ≤ size) }
    ensures { Ahead w size i result.from result.end }
{
    if i < w.end1 {
        return Window {
            from: i,
            end: w.end1,
        };
    }
    if i < w.end2 {
        return Window {
            from: later(i, w.from2),
            end: w.end2,
        };
    }
    if i < w.end3 {
        return Window {
            from: later(i, w.from3),
            end: w.end3,
        };
    }
    if i < w.end4 {
        return Window {
            from: later(i, w.from4),
            end: w.end4,
        };
    }
    Window {
        from: size,
        end: size,
    }
}

// The whole of an image of so many bytes as one window.
pub fn whole(size: usize) -> Windows
    ensures { (result.end1 ≡ size) × Sorted result size }
{
    Windows {
        end1: size,
        from2: size,
        end2: size,
        from3: size,
        end3: size,
        from4: size,
        end4: size,
    }
}

// Question 16, of a list and a working slice for an image of so many bytes.
pub fn slices_allowed(size: usize, work: usize, list: usize) -> bool
    ensures { result ≡ (list_allowed list && work_allowed size work) }
{
    (8 <= list) & (size <= work)
}
