//! The choice of a kernel by the width of a block.

// Calls the kernel that is made for this width, so that its shifts are constants; width 0, and what
// no caller passes, have a way of their own.
macro_rules! at_width {
    ($width:expr, $kernel:ident($($argument:expr),*), $none:expr) => {
        match $width {
            1 => $kernel::<1>($($argument),*),
            2 => $kernel::<2>($($argument),*),
            3 => $kernel::<3>($($argument),*),
            4 => $kernel::<4>($($argument),*),
            5 => $kernel::<5>($($argument),*),
            6 => $kernel::<6>($($argument),*),
            7 => $kernel::<7>($($argument),*),
            8 => $kernel::<8>($($argument),*),
            9 => $kernel::<9>($($argument),*),
            10 => $kernel::<10>($($argument),*),
            11 => $kernel::<11>($($argument),*),
            12 => $kernel::<12>($($argument),*),
            13 => $kernel::<13>($($argument),*),
            14 => $kernel::<14>($($argument),*),
            15 => $kernel::<15>($($argument),*),
            16 => $kernel::<16>($($argument),*),
            17 => $kernel::<17>($($argument),*),
            18 => $kernel::<18>($($argument),*),
            19 => $kernel::<19>($($argument),*),
            20 => $kernel::<20>($($argument),*),
            21 => $kernel::<21>($($argument),*),
            22 => $kernel::<22>($($argument),*),
            23 => $kernel::<23>($($argument),*),
            24 => $kernel::<24>($($argument),*),
            25 => $kernel::<25>($($argument),*),
            26 => $kernel::<26>($($argument),*),
            27 => $kernel::<27>($($argument),*),
            28 => $kernel::<28>($($argument),*),
            29 => $kernel::<29>($($argument),*),
            30 => $kernel::<30>($($argument),*),
            31 => $kernel::<31>($($argument),*),
            32 => $kernel::<32>($($argument),*),
            _ => $none,
        }
    };
}

pub(crate) use at_width;
