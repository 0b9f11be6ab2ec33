//! What is done with each input, and what a worker calls around it.
ghost use Rattle.std.specs.Prelude.{◌≡◌};

/// Work on an input. The answer is a function of the input alone, `answer`, which the type states.
///
/// # Examples
///
/// ```
/// struct Square;
///
/// impl Job<u64, u64> for Square {
///     ghost answer = { λ number. (number * number) % 2 ^ 64 };
///
///     fn run(&self, number: &u64) -> u64 {
///         number.wrapping_mul(*number)
///     }
/// }
///
/// assert_eq!(rt; Square.run(&5), 25);
/// ```
pub trait Job<A, B> {
    ghost answer: { A → B };

    /// The answer for an input.
    fn run(&self, input: &A) -> B
        ensures { result ≡ answer input.now };
}

/// What a worker calls around its work on the input at a place, on its own thread.
///
/// # Examples
///
/// ```
/// /// Counts the inputs that were worked on.
/// struct Count(AtomicU64);
///
/// impl Gate for Count {
///     fn before(&self, _place: usize) {}
///
///     fn after(&self, _place: usize) {
///         self.0.fetch_add(1, Ordering::SeqCst);
///     }
/// }
/// ```
pub trait Gate {
    /// Is called just before the job runs on the input at the place.
    fn before(&self, place: usize);

    /// Is called when the job has run on the input at the place.
    fn after(&self, place: usize);
}

/// A gate that does nothing.
///
/// # Examples
///
/// ```
/// let answers = map_all(&rt, rt.alloc(), &Square, &Open, &[5, 6], 2, 1, &mut maker)?;
/// assert_eq!(rt; answers.as_slice(), [25, 36].as_slice());
/// ```
#[derive(Clone, Copy)]
pub struct Open;

impl Gate for Open {
    fn before(&self, _place: usize) {}

    fn after(&self, _place: usize) {}
}
