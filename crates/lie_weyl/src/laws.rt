//! What follows from the definitions alone: laws of every loaded datum.

ghost use Rattle.lie_weyl.specs.Laws.{RightLengths, LeftLengths, InverseLengths, ShortestWords, Exchange, GreedyIsLeast, ImagesDetermineAction};
ghost use Rattle.lie_weyl.specs.Orders.{OrdersOfProducts};

/// Words that move each simple root alike move all roots alike.
pub fn images_determine_action()
    ensures { ImagesDetermineAction }
{}

/// One simple factor more changes the length by one, up or down as the sign of the image of the
/// simple root tells.
pub fn one_factor_more()
    ensures right { RightLengths }
    ensures left { LeftLengths }
{}

/// An element and its inverse have one length.
pub fn inverse_lengths()
    ensures { InverseLengths }
{}

/// Every product has a word of its length, and none shorter.
pub fn shortest_words()
    ensures { ShortestWords }
{}

/// The exchange condition: a word that makes a simple root negative loses a letter to that
/// reflection.
pub fn exchange()
    ensures { Exchange }
{}

/// The word that begins with the first descent each time is the least word.
pub fn greedy_is_least()
    ensures { GreedyIsLeast }
{}

/// The order of a product of two simple reflections: 2, 3, 4 or 6, by the Cartan integers.
pub fn orders_of_products()
    ensures { OrdersOfProducts }
{}
