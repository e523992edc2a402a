ghost use Rattle.std.specs.Prelude.{◌≡◌};
ghost use Rattle.image_machine_cli.specs.LimitLines.{limit_line};

use byte_streams::Line;
use image_machine::Limit;
use machine::HardFault;

/// Returns the line that says which limit is violated.
pub(crate) fn limit_line(limit: &Limit) -> Line
    ensures { result ≡ limit_line limit.now }
{
    let mut line = Line::new();
    match *limit {
        Limit::Memory { pages } => {
            line.put(b"limit page frames 65536: memory pages ");
            line.put_number(pages);
        }
        Limit::Slots { last } => {
            line.put(b"limit slots 131072: last page ");
            line.put_number(u64::from(last));
        }
        Limit::Zones(_) => line.put(b"zones refused"),
        Limit::Count { count, pages } => {
            line.put(b"page frames in zones ");
            line.put_number(u64::from(count));
            line.put(b": memory pages ");
            line.put_number(pages);
        }
        Limit::Offset { block, offset } => {
            line.put(b"block of slot 0 ");
            line.put_number(u64::from(block));
            line.put(b": offset ");
            line.put_number(u64::from(offset));
        }
        Limit::Outside { number } => {
            line.put(b"page frame ");
            line.put_number(number);
            line.put(b" lies in no zone");
        }
        Limit::NoRoom => line.put(b"no room for the tables"),
        Limit::Hardware(HardFault::Tables) => line.put(b"tables refused"),
        Limit::Hardware(HardFault::Extents) => line.put(b"extents refused"),
        Limit::Hardware(_) => line.put(b"hardware refused"),
        Limit::TooFew { have, need } => {
            line.put(b"free page frames ");
            line.put_number(u64::from(have));
            line.put(b": needed ");
            line.put_number(need);
        }
        Limit::Tables { number } => {
            line.put(b"tables: page frame ");
            line.put_number(u64::from(number));
        }
    }
    line.put(b"\n");
    line
}
