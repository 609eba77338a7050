ghost use Rattle.std.specs.Prelude.{◌≡◌};
ghost use Rattle.path_workers.specs.Keeping.{IsWithin};
ghost use Rattle.path_threads.specs.Allowed.{allowed, event_loss, loss_of, with_loss};

use crate::orders::Order;
use ckd_types::DeviceNo;
use device_defs::Losses;
use loss_model::Loss;
use path_workers::one_more;
use subsystem_defs::Event;

fn event_loss(number: DeviceNo, event: Event) -> Option<Loss>
    ensures { result ≡ event_loss number event }
{
    match event {
        Event::FailCache => Some(Loss::Cache),
        Event::FailStore => Some(Loss::Store),
        Event::FailVolume(d, side) => {
            if d == number {
                Some(Loss::Side(side))
            } else {
                None
            }
        }
        _ => None,
    }
}

fn loss_of<M>(number: DeviceNo, order: &Order<M>) -> Option<Loss>
    ensures { result ≡ loss_of number order.now }
{
    match order {
        Order::Event(event) => event_loss(number, *event),
        Order::Replace(..) => None,
    }
}

fn with_loss(losses: Losses, loss: Option<Loss>) -> Losses
    ensures is { result ≡ with_loss losses loss }
    ensures more { IsWithin losses result }
{
    match loss {
        Some(loss) => one_more(losses, loss),
        None => losses,
    }
}

/// How many losses the device of this number may have while these orders are done, where it had so many.
pub(crate) fn allowed<M>(losses: Losses, number: DeviceNo, orders: &[Order<M>]) -> Losses
    ensures is { result ≡ allowed losses number orders.now }
    ensures more { IsWithin losses result }
{
    let mut most = losses;
    for order in orders {
        most = with_loss(most, loss_of(number, order));
    }
    most
}
