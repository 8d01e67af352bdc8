// The clock of initialisation.

/// The ticks that initialisation may take where nothing else is asked for.
pub const INIT_STEPS: u32 = 1_000_000;
